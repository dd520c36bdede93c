//! Why a source gives no slots.

use thiserror::Error;

/// Why a C source gives no slots: the first of these that is so, in this order.
#[derive(Clone, Copy, Debug, PartialEq, Eq, Error)]
pub enum TableFault {
    /// The array is not there.
    #[error("table: no array")]
    NoArray,
    /// The array stands there twice or more.
    #[error("table: two arrays")]
    TwoArrays,
    /// The token at this byte is none that may stand there. It is the source's length at its end.
    #[error("table: bad text {at}")]
    BadText { at: u64 },
    /// The value of this entry, counted from 0, is past 7.
    #[error("table: slot value {at}")]
    SlotValue { at: u64 },
    /// Memory ran out.
    #[error("want of memory")]
    Memory,
}
