//! The status with which the program ends.

/// How a run ended. The program ends with its number, from 0 in this order.
#[derive(Clone, Copy, Debug, PartialEq, Eq)]
pub enum Status {
    /// All was done.
    Done,
    /// A file was not accepted.
    Refused,
    /// The words are no command.
    Usage,
    /// The shelf failed at open or read.
    ReadFault,
    /// A create or a write failed.
    WriteFault,
    /// There was not enough memory.
    Memory,
    /// A limit was passed.
    Limit,
    /// A certificate is not valid.
    No,
}
