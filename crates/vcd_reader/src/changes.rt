//! The changes of a dump: levels of the watched signals at rising times.
ghost use Rattle.std.specs.Prelude.{◌≡◌, ◌≤◌, ◌<◌, ◌<ℤ◌, ◌^◌, ◌∷◌, List as Items, Some, true, pos, IfSome};
ghost use Rattle.capture_core.specs.declared.capture.Stamp.{Stamp as AStamp};
ghost use Rattle.capture_core.specs.Stamps.{nothing, instant_at, known_after};
ghost use Rattle.capture_core.specs.LevelsOf.{StandsOpen, watched_by, is_open, time_of_last};
ghost use Rattle.vcd_header.specs.Values.{given_if};

use crate::phase::{Phase, other_token};
use crate::waiting::Waiting;
use capture_core::{Levels, VcdFault, Watch, all_digits};
use std::alloc::{AllocError, Global};
use vcd_header::{Signals, all_code_bytes, is_code, is_end, is_value, level_of, signed, time_of};
use wheel_types::{Channel, Instant, List};

/// The part of the changes.
#[derive(Drop)]
pub struct Changes {
    scale: u128,
    signals: Signals,
    levels: Levels,
    time: u128,
    ghost is_open: { is_open levels ≡ true },
    ghost last: { time_of_last levels ≡ Some (pos time) },
    ghost in_range: { time ≤ 10 ^ 24 },
}

impl Changes {
    ghost use Rattle.std.specs.Prelude.{◌≡◌, ◌<◌, ◌≤◌, ◌∷◌, ◌++◌, [], List, Option, Some, None, IfOk, OnOk, OnErr, MatchOption, pos, drop};
    ghost use Rattle.std.specs.List.{list_all};
    ghost use Rattle.vcd_reader.specs.Changes as change;
    ghost use Rattle.vcd_reader.specs.Dumps as dump;
    ghost use Rattle.vcd_reader.specs.Readings as reading;
    ghost use Rattle.vcd_reader.specs.Standing.{ForBody, Keeps, Brings, IsFresh};
    ghost use Rattle.vcd_header.specs.declared.signals.Signals.{Signals as ASignals};
    ghost use Rattle.capture_core.specs.declared.capture.Watch.{Watch as AWatch};
    ghost use Rattle.capture_core.specs.Stamps.{nothing, instant_at, known_after};
    ghost use Rattle.wheel_types.specs.declared.instant.Instant.{Instant as AnInstant};

    /// No change yet, before the header says what is watched.
    pub fn new(alloc: Global, watch: Watch) -> Changes
        ensures { IsFresh watch result }
    {
        let mut levels = Levels::new(watch);
        levels.open(0);
        Changes {
            scale: 0,
            signals: Signals {
                crank: List::from_vec(Vec::new(alloc)),
                cam1: None,
                cam2: None,
            },
            levels,
            time: 0,
        }
    }

    /// The header says what is watched.
    pub fn begin(&mut self, scale: u128, signals: Signals)
        ensures { (watch : AWatch) (handed waiting : List AnInstant) → handed ++ waiting ≡ [] → IsFresh watch self.old → Keeps watch handed waiting self.new (reading.first_body scale signals) }
    {
        self.scale = scale;
        self.signals = signals;
    }

    /// A change of the signal with this code.
    fn give(&mut self, level: Option<bool>, code: &[u8])
        ensures { (waiting : List AnInstant) → ForBody self.old waiting (λ watch handed b. Keeps watch handed waiting self.new (change.after_change b level code.now)) }
    {
        if let Some(level) = level {
            give_if(
                &mut self.levels,
                self.signals.crank.as_slice() == code,
                Channel::Crank,
                level,
            );
            give_if(
                &mut self.levels,
                is_code(&self.signals.cam1, code),
                Channel::Cam1,
                level,
            );
            give_if(
                &mut self.levels,
                is_code(&self.signals.cam2, code),
                Channel::Cam2,
                level,
            );
        }
    }

    /// Closes the stamp, and opens one at the later time.
    fn advance(&mut self, waiting: &mut Waiting, time: u128) -> Result<(), AllocError>
        requires later { self.old.time < time }
        requires in_range { time ≤ 10 ^ 24 }
        ensures ok { OnOk result (ForBody self.old waiting.old (λ watch handed b. Keeps watch handed waiting.new self.new (change.at_later b time))) }
        ensures err { OnErr result (waiting.new ≡ waiting.old) }
    {
        let closed = next_stamp(&mut self.levels, time);
        self.time = time;
        waiting.push_if(closed)?;
        Ok(())
    }

    /// The identifier code of a change to the level, or of a change that is skipped.
    pub fn code_token(&mut self, level: Option<bool>, code: &[u8], at: u64) -> Phase
        ensures { (waiting : List AnInstant) → ForBody self.old waiting (λ watch handed b. Brings watch handed waiting result self.new (change.code_token b level code.now at)) }
    {
        if code.is_empty() || !all_code_bytes(code) {
            return Phase::Refused(VcdFault::BadToken { at });
        }
        self.give(level, code);
        Phase::Between
    }

    /// The digits of a time.
    fn time_token(
        &mut self,
        waiting: &mut Waiting,
        digits: &[u8],
        at: u64,
    ) -> Result<Phase, AllocError>
        ensures ok { IfOk result (λ p. ForBody self.old waiting.old (λ watch handed b. Brings watch handed waiting.new p self.new (change.time_token b digits.now at))) }
        ensures err { OnErr result (waiting.new ≡ waiting.old) }
    {
        if digits.is_empty() || !all_digits(digits) {
            return Ok(Phase::Refused(VcdFault::BadToken { at }));
        }
        let Some(time) = time_of(digits, self.scale) else {
            return Ok(Phase::Refused(VcdFault::TimeTooLarge { at }));
        };
        if time < self.time {
            return Ok(Phase::Refused(VcdFault::TimeFalls { at }));
        }
        if self.time < time {
            self.advance(waiting, time)?;
        }
        Ok(Phase::Between)
    }

    /// A token between two changes.
    pub fn change_token(
        &mut self,
        waiting: &mut Waiting,
        text: &[u8],
        at: u64,
    ) -> Result<Phase, AllocError>
        ensures ok { IfOk result (λ p. ForBody self.old waiting.old (λ watch handed b. Brings watch handed waiting.new p self.new (change.change_token b text.now at))) }
        ensures err { OnErr result (waiting.new ≡ waiting.old) }
    {
        let [first, rest @ ..] = text else {
            return Ok(Phase::Refused(VcdFault::BadToken { at }));
        };
        if *first == b'#' {
            return self.time_token(waiting, rest, at);
        }
        if is_value(*first) {
            return Ok(self.code_token(level_of(*first), rest, at));
        }
        Ok(other_token(*first, rest, text, at))
    }

    /// The instant at the open stamp.
    pub fn last_instant(&self) -> Option<Instant>
        ensures { (waiting : List AnInstant) → ForBody self.now waiting (λ watch handed b. result ≡ instant_at watch (known_after b.closed) b.now) }
    {
        let mut levels = self.levels;
        levels.close()
    }

    /// A token of the changes.
    pub fn token(
        &mut self,
        waiting: &mut Waiting,
        phase: Phase,
        text: &[u8],
        at: u64,
    ) -> Result<Phase, AllocError>
        ensures ok { IfOk result (λ p. (wanted : ASignals) (watch : AWatch) (handed : List AnInstant) (r : reading.Reading) → Brings watch handed waiting.old phase self.old r
            → Brings watch handed waiting.new p self.new (dump.after_text wanted r text.now at)) }
        ensures err { OnErr result (waiting.new ≡ waiting.old) }
    {
        match phase {
            Phase::Between => self.change_token(waiting, text, at),
            Phase::Wanting(level) => Ok(self.code_token(level, text, at)),
            Phase::Skipping => Ok(if is_end(text) {
                Phase::Between
            } else {
                Phase::Skipping
            }),
            Phase::Refused(fault) => Ok(Phase::Refused(fault)),
        }
    }
}

/// Gives the level where the test holds.
fn give_if(levels: &mut Levels, is: bool, channel: Channel, level: bool)
    requires { is_open levels.old ≡ true }
    ensures stands { (s : AStamp) (closed : Items AStamp) → StandsOpen levels.old s closed → StandsOpen levels.new (record { time = s.time; given = given_if is channel level s.given }) closed }
    ensures watch { watched_by levels.new ≡ watched_by levels.old }
    ensures is_open { is_open levels.new ≡ true }
    ensures last { time_of_last levels.new ≡ time_of_last levels.old }
{
    if is {
        levels.give(channel, level);
    }
}

/// Closes the open stamp and opens one at a later time.
fn next_stamp(levels: &mut Levels, time: u128) -> Option<Instant>
    requires is_open { is_open levels.old ≡ true }
    requires later { IfSome (time_of_last levels.old) (λ t. t <ℤ pos time) }
    requires in_range { time ≤ 10 ^ 24 }
    ensures stands { (s : AStamp) (closed : Items AStamp) → StandsOpen levels.old s closed → StandsOpen levels.new (record { time = pos time; given = nothing }) (s ∷ closed) }
    ensures instant { (s : AStamp) (closed : Items AStamp) → StandsOpen levels.old s closed → result ≡ instant_at (watched_by levels.old) (known_after closed) s }
    ensures watch { watched_by levels.new ≡ watched_by levels.old }
    ensures is_open { is_open levels.new ≡ true }
    ensures last { time_of_last levels.new ≡ Some (pos time) }
{
    let closed = levels.close();
    levels.open(signed(time));
    closed
}
