//! The machine, and its step.
//!
//! The plain machine of `plain_motion` steps sets of places; this one reads a table of states, and answers for every table that a view
//! holds, whatever its entries say.
ghost use Rattle.std.specs.Prelude.{◌≡◌, ◌≤◌, ◌<◌, ◌+◌, ◌-◌, ◌^◌, ◌∷◌, [], ℕ, min, length, slice_index, take, List, IsTrue, if◌then◌else◌, ◌==◌, ◌&&◌};
ghost use Rattle.image_layout.specs.Layout.{state_total, row_width};
ghost use Rattle.image_layout.specs.Fields.{entry_at};
ghost use Rattle.image_layout.specs.Fields.{kind_at};
ghost use Rattle.image_format.specs.Walk.{gap, shape_letter, answer, next, letters_taken, end_state, state_after, taken, letters, joined, begun, last_gap};
ghost use Rattle.wheel_types.specs.declared.instant.Instant.{Instant as Declared};
ghost use Rattle.sync_machine.specs.Times.{is_before, is_upto};

use crate::classes::{ratio_class, time_class};
use crate::steps::Steps;
use crate::verdict::MachineVerdict;
use image_format::{Kind, View};
use std::sync::ledger::Ledger;
use wheel_types::Instant;

/// Walks the table of a borrowed image over instants. Times are in femtoseconds.
#[derive(Drop)]
pub struct Machine<'a> {
    view: View<'a>,
    /// The state after the last instant.
    state: u32,
    /// Whether the window has an instant. A table may lead from state 1 to state 1, so that the state does not tell it.
    started: bool,
    /// When the last instant was.
    time: Option<i128>,
    /// When the window's last crank edge was, and the one before.
    crank: Option<i128>,
    crank_before: Option<i128>,
    /// How many entries of rows were read.
    reads: u64,
    pub ghost in_table: { state < state_total view.bytes.now },
    pub ghost gaps: { IsTrue (is_before crank_before crank) },
    pub ghost past: { IsTrue (is_upto crank time) },
}

/// Where the letters of an instant lead, and how many were taken.
#[derive(Clone, Copy)]
struct Walked {
    state: u32,
    reads: u64,
}

/// The columns of an instant's letters: the first `count` of three.
#[derive(Clone, Copy)]
struct Letters {
    columns: [u32; 3],
    count: usize,
}

/// The time from an edge to a later one, cut down to 64 bits.
fn gap(from: Option<i128>, time: i128) -> u64
    ensures { result ≡ gap from time }
{
    match from {
        None => 1,
        Some(from) => {
            let apart = time.abs_diff(from);
            if apart < u128::from(u64::MAX) {
                apart as u64
            } else {
                u64::MAX
            }
        }
    }
}

/// Reads an entry of the table. Each read ticks.
fn read<L: Ledger>(view: &View<'_>, q: u32, column: u32, steps: &mut Steps<L>) -> u32
    requires state { q < state_total view.now.bytes.now }
    requires column { column < row_width view.now.bytes.now }
    ensures entry { result ≡ entry_at view.now.bytes.now q column }
    ensures within { result < state_total view.now.bytes.now }
    ensures steps { steps.new ≡ steps.old + 1 }
{
    steps.tick();
    view.entry(q, column)
}

/// Where letters lead from a state, up to the first that leads to state 0.
fn follow<L: Ledger>(view: &View<'_>, from: u32, columns: &[u32], steps: &mut Steps<L>) -> Walked
    requires state { from < state_total view.now.bytes.now }
    requires columns { (k : ℕ) → k < length columns.now → slice_index columns.now k < row_width view.now.bytes.now }
    ensures state { result.state ≡ state_after view.now.bytes.now from columns.now }
    ensures within { result.state < state_total view.now.bytes.now }
    ensures reads { result.reads ≡ taken view.now.bytes.now from columns.now }
    ensures most { result.reads ≤ length columns.now }
    ensures steps { steps.new ≡ steps.old + result.reads }
{
    let mut state = from;
    let mut reads = 0;
    for column in columns {
        state = read(view, state, *column, steps);
        reads += 1;
        if state == 0 {
            return Walked { state, reads };
        }
    }
    Walked { state, reads }
}

/// The column of an instant's shape.
fn shape_letter(view: &View<'_>, instant: &Instant) -> u32
    ensures letter { result ≡ shape_letter view.now.bytes.now instant.now }
    ensures within { result < row_width view.now.bytes.now }
{
    view.row_width() - 26 + (instant.shape().number() - 1)
}

impl<'a> Machine<'a> {
    ghost use Rattle.image_format.specs.Walk.{fresh, stand_after};
    ghost use Rattle.image_format.specs.Phases.{TellsCrank};
    ghost use Rattle.std.specs.Prelude.{None, Some};
    ghost use Rattle.sync_machine.specs.Machine.{stand_of, verdict_of, StandsFor, IsWithin};

    /// Begins in state 1, with no instant.
    pub fn new(view: View<'a>) -> Machine<'a>
        ensures stand { stand_of result ≡ fresh None }
        ensures stands { StandsFor result [] }
        ensures view { result.view.bytes.now ≡ view.entry.bytes.now }
        ensures reads { result.reads ≡ 0 }
    {
        Machine {
            view,
            state: 1,
            started: false,
            time: None,
            crank: None,
            crank_before: None,
            reads: 0,
        }
    }

    /// The state after the last instant; after `Lost` that of the next window.
    pub fn state(&self) -> u32
        ensures state { result ≡ self.now.state }
        ensures walk { (past : List Declared) → StandsFor self.now past → result ≡ (stand_after self.now.view.bytes.now past).state }
        ensures edges { (past : List Declared) → StandsFor self.now past → TellsCrank self.now.view.bytes.now (stand_after self.now.view.bytes.now past) }
    {
        self.state
    }

    /// The image whose table it walks.
    #[inline]
    pub fn view(&self) -> &View<'a>
        ensures { result.now ≡ self.now.view }
    {
        &self.view
    }

    /// Whether the window that the next instant comes into has an instant.
    #[inline]
    pub fn started(&self) -> bool
        ensures { result ≡ self.now.started }
    {
        self.started
    }

    /// When the last instant was, so that a caller can test whether another one is later.
    pub fn last(&self) -> Option<i128>
        ensures { result ≡ self.now.time }
    {
        self.time
    }

    /// How many entries of rows the steps have read. It stays at `2^64 - 1`.
    pub fn reads(&self) -> u64
        ensures { result ≡ self.now.reads }
    {
        self.reads
    }

    /// The gap before this one's, as the instant's own.
    fn last_gap(&self) -> u64
        ensures value { result ≡ last_gap (stand_of self.now) }
        ensures some { 1 ≤ result }
    {
        match self.crank {
            None => 1,
            Some(crank) => gap(self.crank_before, crank),
        }
    }

    /// The columns of an instant's letters. Each comparison with a cut ticks.
    fn letters<L: Ledger>(&self, instant: &Instant, steps: &mut Steps<L>) -> Letters
        ensures letters { take result.count result.columns ≡ letters self.now.view.bytes.now (stand_of self.now) instant.now }
        ensures few { result.count ≤ 3 }
        ensures within { (k : ℕ) → k < result.count → slice_index result.columns k < row_width self.now.view.bytes.now }
        ensures grown { steps.old ≤ steps.new }
        ensures cost { IsWithin self.now.view.bytes.now 0 steps.old steps.new }
    {
        let shape = shape_letter(&self.view, instant);
        let phase = self.view.phase(self.state);
        if instant.crank.is_none() || phase == 0 {
            return Letters {
                columns: [shape, 0, 0],
                count: 1,
            };
        }
        let time = gap(self.crank, instant.time);
        let timed = time_class(&self.view, time, steps);
        if phase != 2 {
            return Letters {
                columns: [timed, shape, 0],
                count: 2,
            };
        }
        let ratio = ratio_class(&self.view, self.last_gap(), time, steps);
        Letters {
            columns: [timed, self.view.time_cuts() + 1 + ratio, shape],
            count: 3,
        }
    }

    /// Begins a window with no instant.
    fn clear(&mut self, time: Option<i128>)
        ensures stand { stand_of self.new ≡ fresh time }
        ensures view { self.new.view.bytes.now ≡ self.old.view.bytes.now }
        ensures reads { self.new.reads ≡ self.old.reads }
    {
        self.state = 1;
        self.started = false;
        self.time = time;
        self.crank = None;
        self.crank_before = None;
    }

    /// The window goes on with an instant, in a state.
    fn join(&mut self, instant: &Instant, to: u32)
        requires state { to < state_total self.old.view.bytes.now }
        requires later { IsTrue (is_before self.old.time (Some instant.now.time)) }
        ensures stand { stand_of self.new ≡ joined self.old.crank self.old.crank_before instant.now to }
        ensures view { self.new.view.bytes.now ≡ self.old.view.bytes.now }
        ensures reads { self.new.reads ≡ self.old.reads }
    {
        self.state = to;
        self.started = true;
        self.time = Some(instant.time);
        if instant.crank.is_some() {
            self.crank_before = self.crank;
            self.crank = Some(instant.time);
        }
    }

    /// What follows a lost instant: a window that begins with it where its shape leads on from state 1, else one with no instant.
    /// Answers how many entries were read.
    fn begin<L: Ledger>(&mut self, instant: &Instant, steps: &mut Steps<L>) -> u64
        ensures stand { stand_of self.new ≡ (if self.old.started then begun self.old.view.bytes.now instant.now else fresh (Some instant.now.time)) }
        ensures view { self.new.view.bytes.now ≡ self.old.view.bytes.now }
        ensures reads { self.new.reads ≡ self.old.reads }
        ensures read { result ≡ (if self.old.started then 1 else 0) }
        ensures steps { steps.new ≡ steps.old + result }
    {
        if !self.started {
            self.clear(Some(instant.time));
            return 0;
        }
        let column = shape_letter(&self.view, instant);
        let to = read(&self.view, 1, column, steps);
        if to == 0 {
            self.clear(Some(instant.time));
        } else {
            self.clear(None);
            self.join(instant, to);
        }
        1
    }

    /// The verdict of a state.
    fn verdict(&self, state: u32) -> MachineVerdict
        requires { state < state_total self.now.view.bytes.now }
        ensures { result ≡ verdict_of (if state == 0 then Kind.Dead else kind_at self.now.view.bytes.now state) }
    {
        if state == 0 {
            return MachineVerdict::Lost;
        }
        match self.view.kind(state) {
            Kind::Dead => MachineVerdict::Lost,
            Kind::At { j } => MachineVerdict::At { j },
            Kind::Open { e, f } => MachineVerdict::Open { e, f },
        }
    }

    /// Moves to where an instant's letters led. Answers how many more entries were read.
    fn settle<L: Ledger>(&mut self, instant: &Instant, to: u32, steps: &mut Steps<L>) -> u64
        requires state { to < state_total self.old.view.bytes.now }
        requires later { IsTrue (is_before self.old.time (Some instant.now.time)) }
        requires end { to ≡ end_state self.old.view.bytes.now (stand_of self.old) instant.now }
        ensures stand { stand_of self.new ≡ next self.old.view.bytes.now (stand_of self.old) instant.now }
        ensures view { self.new.view.bytes.now ≡ self.old.view.bytes.now }
        ensures reads { self.new.reads ≡ self.old.reads }
        ensures read { result ≡ (if (to == 0) && self.old.started then 1 else 0) }
        ensures steps { steps.new ≡ steps.old + result }
    {
        if to == 0 {
            return self.begin(instant, steps);
        }
        self.join(instant, to);
        0
    }

    /// Takes the next instant, whose time is above the last one's, and answers its verdict.
    ///
    /// Each comparison with a cut and each entry read ticks: at most 4 entries, and as many comparisons as the numbers of time cuts and of
    /// ratio cuts have binary digits. Nothing else ticks, and no memory is taken.
    pub fn step<L: Ledger>(&mut self, instant: &Instant, steps: &mut Steps<L>) -> MachineVerdict
        requires later { IsTrue (is_before self.old.time (Some instant.now.time)) }
        ensures verdict { result ≡ verdict_of (answer self.old.view.bytes.now (stand_of self.old) instant.now) }
        ensures stand { stand_of self.new ≡ next self.old.view.bytes.now (stand_of self.old) instant.now }
        ensures stands { (past : List Declared) → StandsFor self.old past → StandsFor self.new (instant.now ∷ past) }
        ensures view { self.new.view.bytes.now ≡ self.old.view.bytes.now }
        ensures reads { self.new.reads ≡ min (self.old.reads + letters_taken self.old.view.bytes.now (stand_of self.old) instant.now) (2 ^ 64 - 1) }
        ensures least { steps.old + letters_taken self.old.view.bytes.now (stand_of self.old) instant.now ≤ steps.new }
        ensures most { IsWithin self.old.view.bytes.now 4 steps.old steps.new }
    {
        let letters = self.letters(instant, steps);
        let walked = follow(
            &self.view,
            self.state,
            &letters.columns[..letters.count],
            steps,
        );
        let verdict = self.verdict(walked.state);
        let more = self.settle(instant, walked.state, steps);
        self.reads = self.reads.saturating_add(walked.reads + more);
        verdict
    }
}
