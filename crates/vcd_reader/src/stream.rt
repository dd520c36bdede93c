//! A dump that is read in pieces, before its end.
use crate::fault::{FeedFault, answer};
use crate::machine::Machine;
use crate::phase::Phase;
use crate::stage::Stage;
use crate::token::{Token, is_white};
use crate::waiting::Waiting;
use capture_core::{VcdFault, Watch};
use std::alloc::{AllocError, Global};
use vcd_header::Signals;
use wheel_types::Instant;

/// A dump that is read in pieces, before its end. After a fault it keeps what it has and reads nothing more.
#[derive(Drop)]
pub struct Stream {
    alloc: Global,
    machine: Machine,
    run: Token,
    read: u64,
    waiting: Waiting,
}

impl Stream {
    ghost use Rattle.std.specs.Prelude.{◌≡◌, ◌+◌, ◌<◌, ◌≤◌, ◌^◌, ◌++◌, ◌∷◌, [], Some, None, List, ℕ, Err, OnOk, OnErr, MatchOption, length};
    ghost use Rattle.std.specs.List.{fold};
    ghost use Rattle.vcd_reader.specs.Tokens.{begun};
    ghost use Rattle.vcd_reader.specs.Reads.{ForReading, Reads};
    ghost use Rattle.vcd_reader.specs.Answers.{AreFirst, Tells, UnlessMemory};
    ghost use Rattle.vcd_reader.specs.Streams.{ForBytes, StandsFor, Ends, StopsWithin, StopsAtEnd};
    ghost use Rattle.vcd_reader.specs.Dumps as dump;
    ghost use Rattle.vcd_reader.specs.Readings.{Reading};
    ghost use Rattle.capture_core.specs.declared.capture.Watch.{Watch as AWatch};
    ghost use Rattle.capture_core.specs.declared.capture.VcdFault.{VcdFault as AFault};
    ghost use Rattle.capture_core.specs.Stamps.{instants_of};
    ghost use Rattle.vcd_header.specs.declared.signals.Signals.{Signals as ASignals};
    ghost use Rattle.wheel_types.specs.declared.instant.Instant.{Instant as AnInstant};

    /// Before the first byte.
    pub fn new(alloc: Global, wanted: Signals, watch: Watch) -> Stream
        ensures stands { StandsFor wanted watch [] result [] }
        ensures count { result.read ≡ 0 }
    {
        Stream {
            alloc,
            machine: Machine::new(alloc, wanted, watch),
            run: Token::new(alloc),
            read: 0,
            waiting: Waiting::new(alloc),
        }
    }

    /// The first fault of the stream so far.
    fn fault(&self) -> Option<VcdFault>
        ensures { ForReading self.now.machine self.now.waiting (λ watch handed r. result ≡ dump.fault_of r) }
    {
        match self.machine.stage {
            Stage::Past(Phase::Refused(fault)) => Some(fault),
            _ => None,
        }
    }

    /// The open token ends, if it has begun.
    fn end_token(&mut self) -> Result<(), AllocError>
        ensures ok { OnOk result (ForReading self.old.machine self.old.waiting (λ watch handed r. Reads watch handed self.new.waiting self.new.machine (fold (dump.after_token self.old.machine.wanted) r (begun self.old.run)))) }
        ensures run { self.new.run ≡ self.old.run }
        ensures count { self.new.read ≡ self.old.read }
        ensures names { self.new.machine.wanted ≡ self.old.machine.wanted }
        ensures err { OnErr result (self.new.waiting ≡ self.old.waiting) }
    {
        if self.run.text.as_slice().is_empty() {
            return Ok(());
        }
        self.machine.token(
            self.alloc,
            &mut self.waiting,
            self.run.text.as_slice(),
            self.run.at,
        )?;
        Ok(())
    }

    /// The next byte, where there is no fault yet.
    fn sound_byte(&mut self, b: u8) -> Result<(), AllocError>
        requires { self.old.read + 1 < 2 ^ 64 }
        ensures ok { OnOk result (ForBytes self.old (λ wanted watch handed bytes. dump.fault_of (dump.reading_of wanted bytes) ≡ None → StandsFor wanted watch handed self.new (bytes ++ b ∷ []))) }
        ensures count { self.new.read ≤ self.old.read + 1 }
        ensures err { OnErr result (self.new.waiting ≡ self.old.waiting) }
    {
        if is_white(b) {
            self.end_token()?;
            self.read += 1;
            self.run.restart(self.read);
        } else {
            self.run.push(b)?;
            self.read += 1;
        }
        Ok(())
    }

    /// The next byte.
    fn byte(&mut self, b: u8) -> Result<(), AllocError>
        requires { self.old.read + 1 < 2 ^ 64 }
        ensures ok { OnOk result (ForBytes self.old (λ wanted watch handed bytes. StandsFor wanted watch handed self.new (bytes ++ b ∷ []))) }
        ensures count { self.new.read ≤ self.old.read + 1 }
        ensures err { OnErr result (self.new.waiting ≡ self.old.waiting) }
    {
        match self.fault() {
            Some(_) => Ok(()),
            None => self.sound_byte(b),
        }
    }

    /// Reads the next piece.
    fn pour(&mut self, piece: &[u8]) -> Result<(), AllocError>
        requires { self.old.read + length piece.now < 2 ^ 64 }
        ensures ok { OnOk result (ForBytes self.old (λ wanted watch handed bytes. StandsFor wanted watch handed self.new (bytes ++ piece.now))) }
        ensures count { self.new.read ≤ self.old.read + length piece.now }
        ensures err { OnErr result (ForBytes self.old (λ wanted watch handed bytes. StopsWithin wanted watch handed self.new.waiting bytes piece.now)) }
    {
        'bytes: for b in piece {
            self.byte(*b)?;
        }
        Ok(())
    }

    /// Reads the next piece, and tells the first fault of the stream so far.
    pub fn feed(&mut self, piece: &[u8]) -> Result<(), FeedFault>
        requires { self.old.read + length piece.now < 2 ^ 64 }
        ensures stands { UnlessMemory result (ForBytes self.old (λ wanted watch handed bytes. StandsFor wanted watch handed self.new (bytes ++ piece.now))) }
        ensures fault { ForBytes self.old (λ wanted watch handed bytes. Tells result (dump.so_far wanted (bytes ++ piece.now)).fault) }
        ensures refused { ForBytes self.old (λ wanted watch handed bytes. (f : AFault) → (dump.so_far wanted bytes).fault ≡ Some f → (self.new ≡ self.old) × (result ≡ Err (FeedFault.Refused f))) }
        ensures count { self.new.read ≤ self.old.read + length piece.now }
        ensures memory { result ≡ Err FeedFault.Memory → ForBytes self.old (λ wanted watch handed bytes. AreFirst (instants_of watch (dump.so_far wanted bytes).closed) (handed ++ self.new.waiting) (instants_of watch (dump.so_far wanted (bytes ++ piece.now)).closed)) }
    {
        if let Some(fault) = self.fault() {
            return Err(FeedFault::Refused(fault));
        }
        match self.pour(piece) {
            Ok(()) => answer(self.fault()),
            Err(AllocError) => Err(FeedFault::Memory),
        }
    }

    /// The stream ends where no token is open.
    fn end_here(&mut self) -> Result<(), FeedFault>
        ensures ends { ForReading self.old.machine self.old.waiting (λ watch handed r. dump.fault_of r ≡ None → Ends watch handed self.new.waiting result (dump.at_end r self.old.read)) }
        ensures count { self.new.read ≡ self.old.read }
        ensures memory { result ≡ Err FeedFault.Memory → self.new.waiting ≡ self.old.waiting }
    {
        if let Stage::Past(phase) = self.machine.stage {
            if let Phase::Between = phase {
                return match self.waiting.push_if(self.machine.changes.last_instant()) {
                    Ok(()) => Ok(()),
                    Err(AllocError) => Err(FeedFault::Memory),
                };
            }
        }
        Err(FeedFault::Refused(VcdFault::Cut { at: self.read }))
    }

    /// The stream ends after an open token.
    fn end_last(&mut self) -> Result<(), FeedFault>
        requires { begun self.old.run ≡ self.old.run ∷ [] }
        ensures ends { ForReading self.old.machine self.old.waiting (λ watch handed r. (next : Reading) → next ≡ dump.after_token self.old.machine.wanted r self.old.run → Ends watch handed self.new.waiting result (dump.at_last (dump.fault_of next) next self.old.run.at self.old.read)) }
        ensures count { self.new.read ≡ self.old.read }
        ensures memory { result ≡ Err FeedFault.Memory → ForReading self.old.machine self.old.waiting (λ watch handed r. (next : Reading) → next ≡ dump.after_token self.old.machine.wanted r self.old.run → StopsAtEnd watch handed self.new.waiting r next) }
    {
        if let Err(AllocError) = self.end_token() {
            return Err(FeedFault::Memory);
        }
        match self.fault() {
            Some(_) => Err(FeedFault::Refused(VcdFault::Cut { at: self.run.at })),
            None => self.end_here(),
        }
    }

    /// Ends the stream, which is then a whole file.
    pub fn finish(&mut self) -> Result<(), FeedFault>
        ensures ends { ForBytes self.old (λ wanted watch handed bytes. Ends watch handed self.new.waiting result (dump.whole wanted bytes)) }
        ensures refused { ForBytes self.old (λ wanted watch handed bytes. (f : AFault) → (dump.so_far wanted bytes).fault ≡ Some f → result ≡ Err (FeedFault.Refused f)) }
        ensures count { self.new.read ≡ self.old.read }
        ensures memory { result ≡ Err FeedFault.Memory → ForBytes self.old (λ wanted watch handed bytes. AreFirst (instants_of watch (dump.so_far wanted bytes).closed) (handed ++ self.new.waiting) (instants_of watch (dump.whole wanted bytes).closed)) }
    {
        if let Some(fault) = self.fault() {
            return Err(FeedFault::Refused(fault));
        }
        if self.run.text.as_slice().is_empty() {
            return self.end_here();
        }
        self.end_last()
    }

    /// The next closed instant.
    pub fn take(&mut self) -> Option<Instant>
        ensures queue { MatchOption result ((self.old.waiting ≡ []) × (self.new.waiting ≡ [])) (λ first. self.old.waiting ≡ first ∷ self.new.waiting) }
        ensures stands { ForBytes self.old (λ wanted watch handed bytes. MatchOption result (StandsFor wanted watch handed self.new bytes) (λ i. StandsFor wanted watch (handed ++ i ∷ []) self.new bytes)) }
        ensures count { self.new.read ≡ self.old.read }
    {
        self.waiting.take()
    }
}
