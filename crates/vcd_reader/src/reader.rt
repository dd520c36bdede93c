//! The reader of value change dumps.
ghost use Rattle.vcd_reader.specs.declared.fault.FeedFault.TheVariants as fault;

use crate::fault::{FeedFault, answer};
use crate::stream::Stream;
use capture_core::{Names, VcdFault, Watch};
use std::alloc::Global;
use vcd_header::wanted_by;
use wheel_types::{Instant, Memory};

/// Whether a stream goes on, has ended with this fault or none, or lacked memory.
#[derive(Clone, Copy, Debug, PartialEq, Eq)]
pub enum Progress {
    Open,
    Ended(Option<VcdFault>),
    Spent,
}

/// Reads a value change dump in pieces, and hands out the instants of its closed stamps.
///
/// Where the pieces are cut doesn't matter. A name is that of a signal, or its path: the names of the scopes and its
/// own, joined by points. Closed instants wait until they are taken.
#[derive(Drop)]
pub struct VcdReader {
    stream: Stream,
    progress: Progress,
}

impl VcdReader {
    ghost use Rattle.std.specs.Prelude.{◌≡◌, ◌+◌, ◌<◌, ◌≤◌, ◌^◌, ◌++◌, ◌∷◌, [], Some, Err, IfOk, MatchOption, length};
    ghost use Rattle.vcd_reader.specs.Answers.{AreFirst, Tells, UnlessMemory, answer_to};
    ghost use Rattle.vcd_reader.specs.Dumps.{fault_so_far, instants_so_far, fault_of_file, vcd_capture};
    ghost use Rattle.vcd_reader.specs.Readers.{StandsFor, StandsForFile, IsSpent, ForStream, ForFile, bytes_read, waiting_in};
    ghost use Rattle.capture_core.specs.declared.capture.VcdFault.{VcdFault as AFault};

    /// A reader before the first byte, for the crank and the cams that are watched. The error is want of memory.
    pub fn new(alloc: Global, names: &Names, watch: Watch) -> Result<VcdReader, Memory>
        ensures stands { IfOk result (λ r. StandsFor names.now watch [] r []) }
        ensures count { IfOk result (λ r. bytes_read r ≡ 0) }
    {
        let wanted = wanted_by(alloc, names, watch)?;
        Ok(VcdReader {
            stream: Stream::new(alloc, wanted, watch),
            progress: Progress::Open,
        })
    }

    /// Reads the stream on, and tells the first rule that it breaks so far. After a fault, after `finish` and after
    /// want of memory it reads nothing and answers the same again.
    pub fn feed(&mut self, piece: &[u8]) -> Result<(), FeedFault>
        requires room { bytes_read self.old + length piece.now < 2 ^ 64 }
        ensures stands { ForStream self.old (λ names watch handed bytes. UnlessMemory result (StandsFor names watch handed self.new (bytes ++ piece.now))) }
        ensures fault { ForStream self.old (λ names watch handed bytes. Tells result (fault_so_far names watch (bytes ++ piece.now))) }
        ensures refused { ForStream self.old (λ names watch handed bytes. (f : AFault) → fault_so_far names watch bytes ≡ Some f
            → (self.new ≡ self.old) × (result ≡ Err (fault.Refused f))) }
        ensures memory { result ≡ Err fault.Memory → IsSpent self.new × ForStream self.old (λ names watch handed bytes.
            AreFirst (instants_so_far names watch bytes) (handed ++ waiting_in self.new) (instants_so_far names watch (bytes ++ piece.now))) }
        ensures ended { ForFile self.old (λ names watch handed bytes. (self.new ≡ self.old) × (result ≡ answer_to (fault_of_file names watch bytes))) }
        ensures spent { IsSpent self.old → (self.new ≡ self.old) × (result ≡ Err fault.Memory) }
        ensures count { bytes_read self.new ≤ bytes_read self.old + length piece.now }
    {
        match self.progress {
            Progress::Open => {
                let told = self.stream.feed(piece);
                if let Err(FeedFault::Memory) = told {
                    self.progress = Progress::Spent;
                }
                told
            }
            Progress::Ended(fault) => answer(fault),
            Progress::Spent => Err(FeedFault::Memory),
        }
    }

    /// Ends the stream, which is then a whole file, and tells the first rule that it breaks. A later call of `feed` or
    /// `finish` answers the same again.
    pub fn finish(&mut self) -> Result<(), FeedFault>
        ensures stands { ForStream self.old (λ names watch handed bytes. UnlessMemory result (StandsForFile names watch handed self.new bytes)) }
        ensures fault { ForStream self.old (λ names watch handed bytes. Tells result (fault_of_file names watch bytes)) }
        ensures refused { ForStream self.old (λ names watch handed bytes. (f : AFault) → fault_so_far names watch bytes ≡ Some f → result ≡ Err (fault.Refused f)) }
        ensures memory { result ≡ Err fault.Memory → IsSpent self.new × ForStream self.old (λ names watch handed bytes.
            AreFirst (instants_so_far names watch bytes) (handed ++ waiting_in self.new) (vcd_capture names watch bytes).instants) }
        ensures ended { ForFile self.old (λ names watch handed bytes. (self.new ≡ self.old) × (result ≡ answer_to (fault_of_file names watch bytes))) }
        ensures spent { IsSpent self.old → (self.new ≡ self.old) × (result ≡ Err fault.Memory) }
        ensures count { bytes_read self.new ≡ bytes_read self.old }
    {
        match self.progress {
            Progress::Open => {
                let told = self.stream.finish();
                self.progress = match told {
                    Ok(()) => Progress::Ended(None),
                    Err(FeedFault::Refused(fault)) => Progress::Ended(Some(fault)),
                    Err(FeedFault::Memory) => Progress::Spent,
                };
                told
            }
            Progress::Ended(fault) => answer(fault),
            Progress::Spent => Err(FeedFault::Memory),
        }
    }

    /// The next closed instant, or none where none waits. It takes no memory.
    pub fn take(&mut self) -> Option<Instant>
        ensures queue { MatchOption result ((waiting_in self.old ≡ []) × (waiting_in self.new ≡ [])) (λ i. waiting_in self.old ≡ i ∷ waiting_in self.new) }
        ensures stream { ForStream self.old (λ names watch handed bytes. MatchOption result (StandsFor names watch handed self.new bytes) (λ i. StandsFor names watch (handed ++ i ∷ []) self.new bytes)) }
        ensures file { ForFile self.old (λ names watch handed bytes. MatchOption result (StandsForFile names watch handed self.new bytes) (λ i. StandsForFile names watch (handed ++ i ∷ []) self.new bytes)) }
        ensures spent { IsSpent self.old → IsSpent self.new }
        ensures count { bytes_read self.new ≡ bytes_read self.old }
    {
        self.stream.take()
    }
}
