//! Why a call is refused.
ghost use Rattle.std.specs.Prelude.{◌≡◌};

use crate::Channel;
use std::alloc::{AllocError, AllocFailed};
use thiserror::Error;

/// Want of memory.
#[derive(Clone, Copy, Debug, PartialEq, Eq, Error)]
#[error("want of memory")]
pub struct Memory;

impl From<AllocError> for Memory {
    fn from(_: AllocError) -> Self {
        Memory
    }
}

impl<T: Drop> From<AllocFailed<T>> for Memory {
    fn from(_: AllocFailed<T>) -> Self {
        Memory
    }
}

/// The first rule of a wheel that its parts break, in this order.
#[derive(Clone, Copy, Debug, PartialEq, Eq, Error)]
pub enum WheelFault {
    /// Degrees are 360 or 720.
    #[error("wheel: degrees")]
    Degrees,
    /// There are 2 to 4,096 slots.
    #[error("wheel: slot count")]
    SlotCount,
    /// A slot's value is at most 7; `at` is the first slot, from 0, with a greater one.
    #[error("wheel: slot value {at}")]
    SlotValue { at: u64 },
    /// A cam's early and late phasing are together below one cycle, `1000 * degrees` millidegrees.
    #[error("wheel: phasing {cam}")]
    Phasing { cam: Channel },
    /// `1 <= rpm_low <= rpm_high <= 30000`.
    #[error("wheel: rpm")]
    Rpm,
    /// `1 <= rd <= rn <= 65535`.
    #[error("wheel: ratio")]
    Ratio,
    /// The crank has a kept edge.
    #[error("wheel: no crank edge")]
    NoCrankEdge,
}
