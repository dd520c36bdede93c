//! Why a run ended.

use crate::refused::{NoTable, NoWheel, NotSound};
use capture_core::{CsvFault, VcdFault};
use image_layout::ImageFault;

/// Why an input is refused.
#[derive(Clone, Copy, Debug, PartialEq, Eq)]
pub enum Refusal {
    /// The model is no wheel file.
    Wheel(NoWheel),
    /// The source has no table of the name.
    Table(NoTable),
    /// The capture in CSV has a fault.
    Csv(CsvFault),
    /// The value change dump has a fault.
    Vcd(VcdFault),
    /// The report has a line that is none of a report; `at` counts lines from 1.
    Report { at: u64 },
    /// The certificate has a line that is none of a certificate; `at` counts lines from 1.
    Certificate { at: u64 },
    /// The image breaks a rule of its layout.
    Image(ImageFault),
    /// The image does not hold the table of its own wheel.
    Audit(NotSound),
    /// The stimulus meets a gap, counted from 0, that no time keeps the limits of: in femtoseconds, `low` is the least time that is long
    /// enough, and `high`, which is less, the greatest that is short enough.
    Stuck { gap: u32, low: u64, high: u64 },
}

/// Which limit was passed.
#[derive(Clone, Copy, Debug, PartialEq, Eq)]
pub enum Limit {
    /// The wheel has more than 16,384 places.
    Places,
    /// The family of the wheel's set automaton has more states than this, which is the limit that holds.
    States { limit: u32 },
    /// A file has more than 2^28 bytes.
    File,
    /// The stimulus has more than 4,000,000 edges.
    Edges,
}

/// Why a run ended before its work was done.
#[derive(Clone, Copy, Debug, PartialEq, Eq)]
pub enum Cause {
    /// The words are no command.
    Usage,
    /// An input is refused.
    Refused(Refusal),
    /// A limit was passed.
    Limit(Limit),
    /// The shelf failed at open or read.
    ReadFault,
    /// A create or a write failed.
    WriteFault,
    /// There was not enough memory.
    Memory,
}

/// How work ends that is done.
#[derive(Clone, Copy, Debug, PartialEq, Eq)]
pub enum Done {
    /// As it should.
    Whole,
    /// With the answer that a certificate is not valid.
    No,
}
