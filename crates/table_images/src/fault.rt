//! Why there is no image.
ghost use Rattle.std.specs.Prelude.{◌≡◌};
ghost use Rattle.table_images.specs.declared.fault.CompileFault.TheVariants.{Memory as WantsMemory};

use std::alloc::{AllocError, AllocFailed};
use thiserror::Error;
use wheel_types::Memory as NoMemory;

/// Why there is no image.
#[derive(Clone, Copy, Debug, PartialEq, Eq, Error)]
pub enum CompileFault {
    /// The wheel has more than 16,384 places.
    #[error("limit: places")]
    TooManyPlaces,
    /// The family has more states than this, which is the limit that holds.
    #[error("limit: states {limit}")]
    TooLarge { limit: u32 },
    /// Memory ran out.
    #[error("want of memory")]
    Memory,
}

impl From<AllocError> for CompileFault {
    ghost from_gives = { λ _ fault. fault ≡ WantsMemory };

    fn from(_: AllocError) -> Self {
        CompileFault::Memory
    }
}

impl<T: Drop> From<AllocFailed<T>> for CompileFault {
    ghost from_gives = { λ _ fault. fault ≡ WantsMemory };

    fn from(_: AllocFailed<T>) -> Self {
        CompileFault::Memory
    }
}

impl From<NoMemory> for CompileFault {
    ghost from_gives = { λ _ fault. fault ≡ WantsMemory };

    fn from(_: NoMemory) -> Self {
        CompileFault::Memory
    }
}
