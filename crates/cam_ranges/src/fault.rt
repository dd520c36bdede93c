//! Why places are refused.
ghost use Rattle.std.specs.Prelude.{◌≡◌};
ghost use Rattle.cam_ranges.specs.declared.fault.PlaceFault.TheVariants.{Memory as WantsMemory};

use std::alloc::AllocFailed;
use thiserror::Error;
use wheel_types::Memory;

/// Why there is no list of all places.
#[derive(Clone, Copy, Debug, PartialEq, Eq, Error)]
pub enum PlaceFault {
    /// The wheel has more than 16,384 places.
    #[error("limit: places")]
    TooMany,
    /// Want of memory.
    #[error("want of memory")]
    Memory,
}

impl From<Memory> for PlaceFault {
    ghost from_gives = { λ _ fault. fault ≡ WantsMemory };

    fn from(_: Memory) -> Self {
        PlaceFault::Memory
    }
}

impl<T: Drop> From<AllocFailed<T>> for PlaceFault {
    ghost from_gives = { λ _ fault. fault ≡ WantsMemory };

    fn from(_: AllocFailed<T>) -> Self {
        PlaceFault::Memory
    }
}
