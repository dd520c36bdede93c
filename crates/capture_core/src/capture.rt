//! Captures, and what they are read from: levels that are given at times.
use std::fmt;
use thiserror::Error;
use wheel_types::{Channel, Instant, Keep, List};

/// Which edges of which channels are kept. The crank is always watched, a cam where it has a polarity.
#[derive(Clone, Copy, Debug, PartialEq, Eq)]
pub struct Watch {
    pub crank: Keep,
    pub cam1: Option<Keep>,
    pub cam2: Option<Keep>,
}

/// The columns or signals of a capture. Without a name for the time, it is the first column.
#[derive(Debug, Drop)]
pub struct Names {
    pub time: Option<String>,
    pub crank: String,
    pub cam1: String,
    pub cam2: String,
}

/// A column of a capture in CSV.
#[derive(Clone, Copy, Debug, PartialEq, Eq)]
pub enum Column {
    Time,
    Crank,
    Cam1,
    Cam2,
}

impl fmt::Display for Column {
    fn fmt<W: fmt::Write>(&self, f: &mut fmt::Formatter<W>) -> fmt::Result {
        f.write_str(match self {
            Column::Time => "time",
            Column::Crank => "crank",
            Column::Cam1 => "cam1",
            Column::Cam2 => "cam2",
        })
    }
}

/// The first rule that a capture in CSV breaks. Rows are counted from 1, and row 1 is the header.
#[derive(Clone, Copy, Debug, PartialEq, Eq, Error)]
pub enum CsvFault {
    /// No column has the name, or there is no header.
    #[error("capture: no column {column}")]
    NoColumn { column: Column },
    /// Two or more columns have the name.
    #[error("capture: two columns {column}")]
    TwoColumns { column: Column },
    /// A used column is not in the row.
    #[error("capture: short row {row}")]
    ShortRow { row: u64 },
    /// The time is no decimal number.
    #[error("capture: bad time row {row}")]
    BadTime { row: u64 },
    /// The time is more than a billion seconds in size.
    #[error("capture: time too large row {row}")]
    TimeTooLarge { row: u64 },
    /// The time is not a whole number of femtoseconds.
    #[error("capture: time too fine row {row}")]
    TimeTooFine { row: u64 },
    /// The time is less than that of the row before.
    #[error("capture: time falls row {row}")]
    TimeFalls { row: u64 },
    /// A watched level is neither 0 nor 1.
    #[error("capture: bad level {column} row {row}")]
    BadLevel { row: u64, column: Column },
}

/// The first rule that a value change dump breaks. Places are counts of bytes before a token.
#[derive(Clone, Copy, Debug, PartialEq, Eq, Error)]
pub enum VcdFault {
    /// The header gives no unit of time.
    #[error("capture: no timescale")]
    NoTimescale,
    /// A token has no meaning where it stands.
    #[error("capture: bad token byte {at}")]
    BadToken { at: u64 },
    /// A time is less than the present one.
    #[error("capture: time falls byte {at}")]
    TimeFalls { at: u64 },
    /// A time is more than a billion seconds.
    #[error("capture: time too large byte {at}")]
    TimeTooLarge { at: u64 },
    /// No signal has the name.
    #[error("capture: no signal {channel}")]
    NoSuchSignal { channel: Channel },
    /// Signals of the name have different codes.
    #[error("capture: two signals {channel}")]
    TwoSignals { channel: Channel },
    /// A signal of the name has more than one bit.
    #[error("capture: wide signal {channel}")]
    WideSignal { channel: Channel },
    /// The dump ends inside what the place begins.
    #[error("capture: cut byte {at}")]
    Cut { at: u64 },
}

/// How a capture ends.
#[derive(Clone, Copy, Debug, PartialEq, Eq)]
pub enum End {
    Clean,
    Csv(CsvFault),
    Vcd(VcdFault),
}

/// The instants of a capture in the order of their times, and how it ends. At a fault the open stamp is not counted.
#[derive(Debug, Drop)]
pub struct Capture {
    pub instants: List<Instant>,
    pub end: End,
}

/// A level for each channel that has one.
#[derive(Clone, Copy, Debug, PartialEq, Eq)]
pub struct Given {
    pub crank: Option<bool>,
    pub cam1: Option<bool>,
    pub cam2: Option<bool>,
}

/// A time in femtoseconds, and the last level that was given there for each channel.
#[derive(Clone, Copy, Debug, PartialEq, Eq)]
pub struct Stamp {
    pub time: i128,
    pub given: Given,
}
