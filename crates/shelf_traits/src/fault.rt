// The ways in which a call on a shelf or a sink can fail.
ghost use Rattle.std.specs.Prelude.{◌≡◌};
ghost use Rattle.shelf_traits.specs.declared.fault.IoFault.TheVariants as io;

use std::alloc::{AllocError, AllocFailed};

/// Why a call on a shelf or a sink did nothing.
#[derive(Clone, Copy, Debug, PartialEq, Eq)]
pub enum IoFault {
    /// A fault of the files or the stream. It comes only where the count of such faults rose.
    Failed,
    /// Want of memory.
    Memory,
}

impl From<AllocError> for IoFault {
    ghost from_gives = { λ _ e. e ≡ io.Memory };

    fn from(_: AllocError) -> Self {
        IoFault::Memory
    }
}

impl<T: Drop> From<AllocFailed<T>> for IoFault {
    ghost from_gives = { λ _ e. e ≡ io.Memory };

    fn from(_: AllocFailed<T>) -> Self {
        IoFault::Memory
    }
}
