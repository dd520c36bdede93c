//! Why there is no automaton.
ghost use Rattle.std.specs.Prelude.{◌≡◌};
ghost use Rattle.subset_build.specs.declared.fault.BuildFault.TheVariants.{Memory as WantsMemory};

use std::alloc::{AllocError, AllocFailed};
use thiserror::Error;

/// Why there is no automaton.
#[derive(Clone, Copy, Debug, PartialEq, Eq, Error)]
pub enum BuildFault {
    /// The family has more states than this, which is the limit that holds.
    #[error("limit: states {limit}")]
    TooLarge { limit: u32 },
    /// Memory ran out.
    #[error("want of memory")]
    Memory,
}

impl From<AllocError> for BuildFault {
    ghost from_gives = { λ _ fault. fault ≡ WantsMemory };

    fn from(_: AllocError) -> Self {
        BuildFault::Memory
    }
}

impl<T: Drop> From<AllocFailed<T>> for BuildFault {
    ghost from_gives = { λ _ fault. fault ≡ WantsMemory };

    fn from(_: AllocFailed<T>) -> Self {
        BuildFault::Memory
    }
}
