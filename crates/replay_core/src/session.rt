//! A session over an image.
ghost use Rattle.std.specs.Prelude.{◌≡◌, ◌<◌, ◌≤◌, ◌+◌, ◌-◌, ◌^◌, ◌∷◌, [], List, None, Some, IfOk, IsTrue, reverse};
ghost use Rattle.wheel_types.specs.declared.instant.Instant.{Instant as Declared};
ghost use Rattle.wheel_types.specs.Verdicts.{IsRising, IsVerdict};
ghost use Rattle.image_layout.specs.Fields.{wheel_parts_of};
ghost use Rattle.sync_machine.specs.Machine.{stand_of, verdict_of};
ghost use Rattle.sync_machine.specs.Times.{is_before};
ghost use Rattle.image_format.specs.Walk.{answer, next};
ghost use Rattle.sound_walk.specs.Laws.{IsKnownSound};
ghost use Rattle.sound_walk.specs.Windows.{window_after};
ghost use Rattle.replay_core.specs.Counts.{AreEdgesIn, AreAtMost};
ghost use Rattle.replay_core.specs.Told.{IsIn, told_verdict, next_counts};
ghost use Rattle.replay_core.specs.Covers.{IsExactAt};
ghost use Rattle.pair_certificate.specs.Reports.{IsCertLineInRange};

use crate::counts::EdgeCounts;
use crate::cover::{ends, kind_of};
use crate::starts::CycleEdges;
use image_audit::Sound;
use image_format::View;
use pair_certificate::CertLine;
use std::alloc::Global;
use std::marker::Brand;
use std::sync::ledger::{Blank, Ledger};
use sync_machine::{Machine, MachineVerdict, Steps};
use wheel_types::{Instant, Memory, Report, Verdict};

/// Makes the report of instants by the walk of an image's rows. It keeps no list of them.
#[derive(Drop)]
pub struct Session<'a> {
    machine: Machine<'a>,
    /// How many edges stand in a cycle of the image's wheel.
    cycle: CycleEdges,
    /// The edges of the window that the next instant comes into.
    passed: EdgeCounts,
    /// How many instants were stepped.
    stepped: u64,
    /// The last instant's verdict.
    said: Option<Verdict>,
    pub ghost edges: { AreEdgesIn (wheel_parts_of machine.view.bytes.now) cycle },
    pub ghost some: { 0 < cycle.crank },
    pub ghost few: { AreAtMost stepped passed },
}

/// Steps a machine with a counter of its own.
fn walked<L: Ledger>(machine: &mut Machine<'_>, instant: &Instant, blank: Blank) -> MachineVerdict
    requires name { blank.name ≡ L.name }
    requires parts { blank.parts ≡ L.parts }
    requires some { 0 < blank.parts }
    requires later { IsTrue (is_before machine.old.time (Some instant.now.time)) }
    ensures verdict { result ≡ verdict_of (answer machine.old.view.bytes.now (stand_of machine.old) instant.now) }
    ensures stand { stand_of machine.new ≡ next machine.old.view.bytes.now (stand_of machine.old) instant.now }
    ensures view { machine.new.view.bytes.now ≡ machine.old.view.bytes.now }
{
    let mut steps = Steps::<L>::new(blank);
    machine.step(instant, &mut steps)
}

/// The verdict of a line by what the machine says, in a window with so many edges.
fn verdict(view: &View<'_>, cycle: CycleEdges, told: MachineVerdict, seen: EdgeCounts) -> Verdict
    requires inside { IsIn view.now.bytes.now told }
    requires edges { AreEdgesIn (wheel_parts_of view.now.bytes.now) cycle }
    requires some { 0 < cycle.crank }
    ensures { result ≡ told_verdict view.now.bytes.now seen told }
{
    match told {
        MachineVerdict::Lost => Verdict::Lost,
        MachineVerdict::At { j } => Verdict::At {
            j,
            slot: view.crank_slot(j),
        },
        MachineVerdict::Open { e, f } => Verdict::Open {
            a: cycle.start(view.place(e), seen),
            b: cycle.start(view.place(f), seen),
        },
    }
}

/// The edges of the window that the next instant comes into, which has an instant or not, where this one's own window has so many.
fn next_counts(
    started: bool,
    told: MachineVerdict,
    instant: &Instant,
    seen: EdgeCounts,
) -> EdgeCounts
    ensures { result ≡ next_counts started told instant.now seen }
{
    match told {
        MachineVerdict::Lost => {
            if started {
                EdgeCounts::none().with(instant)
            } else {
                EdgeCounts::none()
            }
        }
        _ => seen,
    }
}

impl<'a> Session<'a> {
    ghost use Rattle.replay_core.specs.Lines.{line_at};
    ghost use Rattle.replay_core.specs.Sessions.{StandsFor, image_of, last_of, stepped_of};

    /// Begins before the first instant, over any verified image. It takes no memory.
    pub fn new(view: View<'a>) -> Session<'a>
        ensures stands { StandsFor result [] }
        ensures image { image_of result ≡ view.entry.bytes.now }
        ensures last { last_of result ≡ None }
        ensures stepped { stepped_of result ≡ 0 }
    {
        let cycle = CycleEdges::of(&view);
        Session {
            machine: Machine::new(view),
            cycle,
            passed: EdgeCounts::none(),
            stepped: 0,
            said: None,
        }
    }

    /// When the last instant was, in femtoseconds.
    pub fn last(&self) -> Option<i128>
        ensures { result ≡ last_of self.now }
    {
        self.machine.last()
    }

    /// How many instants were stepped.
    pub fn stepped(&self) -> u64
        ensures { result ≡ stepped_of self.now }
    {
        self.stepped
    }

    /// Takes the next instant, whose time is above the last one's, and answers its line by the walk of the image's rows, sound or not.
    /// It asks that fewer than 2^64 - 1 instants were stepped. It takes no memory.
    pub fn step(&mut self, instant: &Instant) -> Report
        requires later { IsTrue (is_before (last_of self.old) (Some instant.now.time)) }
        requires few { stepped_of self.old < 2 ^ 64 - 1 }
        ensures line { (past : List Declared) → StandsFor self.old past → result ≡ line_at (image_of self.old) past instant.now }
        ensures stands { (past : List Declared) → StandsFor self.old past → StandsFor self.new (instant.now ∷ past) }
        ensures sound { (past : List Declared) → StandsFor self.old past → IsKnownSound (image_of self.old)
            → IsRising (reverse (instant.now ∷ past))
            → IsVerdict (wheel_parts_of (image_of self.old)) (instant.now ∷ window_after (image_of self.old) past) result.verdict }
        ensures image { image_of self.new ≡ image_of self.old }
        ensures last { last_of self.new ≡ Some instant.now.time }
        ensures stepped { stepped_of self.new ≡ stepped_of self.old + 1 }
    {
        let told = walked::<Brand>(&mut self.machine, instant, Blank::new(1));
        let seen = self.passed.with(instant);
        let verdict = verdict(self.machine.view(), self.cycle, told, seen);
        self.passed = next_counts(self.machine.started(), told, instant, seen);
        self.stepped += 1;
        self.said = Some(verdict);
        Report {
            index: self.stepped,
            time: instant.time,
            shape: instant.shape(),
            verdict,
        }
    }
    /// The exact certificate's line of the last instant. It asks a model of the session's own bytes, and that an instant was stepped.
    ///
    /// # Errors
    /// Want of memory.
    pub fn cover(&self, alloc: Global, model: &Sound<'_>) -> Result<CertLine, Memory>
        requires model { model.now.view.bytes.now ≡ image_of self.now }
        requires stepped { 1 ≤ stepped_of self.now }
        ensures exact { IfOk result (λ line. (past : List Declared) (i : Declared) → StandsFor self.now (i ∷ past)
            → IsRising (reverse (i ∷ past)) → IsExactAt (image_of self.now) past i line) }
        ensures range { IfOk result IsCertLineInRange }
    {
        let started = self.machine.started();
        let cover = ends(alloc, model.view(), self.machine.state(), started)?;
        Ok(CertLine {
            index: self.stepped(),
            kind: kind_of(self.cycle, self.passed, self.said, cover.as_slice()),
            cover,
        })
    }
}
