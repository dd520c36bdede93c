//! Why there is no stimulus.
ghost use Rattle.std.specs.Prelude.{◌≡◌};
ghost use Rattle.stimulus.specs.declared.fault.StimFault.TheVariants.{Memory as WantsMemory};

use std::alloc::{AllocError, AllocFailed};
use thiserror::Error;
use wheel_types::Memory;

/// Why there is no stimulus: the first of these that is so, in this order.
#[derive(Clone, Copy, Debug, PartialEq, Eq, Error)]
pub enum StimFault {
    /// No time of this gap, counted from 0, keeps the limits: `low`, the least femtoseconds by both, is above `high`, the greatest.
    #[error("stuck {gap} {low} {high}")]
    Stuck { gap: u32, low: u64, high: u64 },
    /// The crank and the cams have more than 4,000,000 edges.
    #[error("limit: edges")]
    TooManyEdges,
    /// Memory ran out.
    #[error("want of memory")]
    Memory,
}

impl From<Memory> for StimFault {
    ghost from_gives = { λ _ fault. fault ≡ WantsMemory };

    fn from(_: Memory) -> Self {
        StimFault::Memory
    }
}

impl From<AllocError> for StimFault {
    ghost from_gives = { λ _ fault. fault ≡ WantsMemory };

    fn from(_: AllocError) -> Self {
        StimFault::Memory
    }
}

impl<T: Drop> From<AllocFailed<T>> for StimFault {
    ghost from_gives = { λ _ fault. fault ≡ WantsMemory };

    fn from(_: AllocFailed<T>) -> Self {
        StimFault::Memory
    }
}
