//! Laws of value change dumps. The functions do nothing; their contracts say the laws.
ghost use Rattle.vcd_reader.specs.Laws.{AllAreTaken, FaultsStay, InstantsRise, InstantsStay, InstantsWithin, LastIsOpen, StampsRise, TokensAreRuns, TokensInOrder, TokensOfJoined};
ghost use Rattle.vcd_reader.specs.OpenStamps.{DumpsAreCaptures, LastStampIsOpen};

/// The tokens of bytes are exactly the longest runs without white space, each with its place, in the order of the
/// bytes; the last run is open where no white space ends it.
pub fn tokens_are_runs()
    ensures runs { TokensAreRuns }
    ensures in_order { TokensInOrder }
    ensures last { LastIsOpen }
{}

/// However bytes are cut, their tokens are the same.
pub fn tokens_of_joined()
    ensures { TokensOfJoined }
{}

/// The times of a file's stamps and instants rise, and none is more than a billion seconds.
pub fn times_rise()
    ensures stamps { StampsRise }
    ensures instants { InstantsRise }
    ensures within { InstantsWithin }
{}

/// What a stream has brought stays when more bytes come: its instants, and its fault where it has one.
pub fn more_bytes_change_nothing()
    ensures instants { InstantsStay }
    ensures fault { FaultsStay }
{}

/// The instants of a stream that a reader stands for were taken or wait.
pub fn all_are_taken()
    ensures { AllAreTaken }
{}

/// A dump is the capture of its stamps, as a capture in CSV is: a clean end closes all of them, and at a fault the last
/// one is open and does not count. So it is while a stream goes on.
pub fn dumps_are_captures()
    ensures whole { DumpsAreCaptures }
    ensures stream { LastStampIsOpen }
{}
