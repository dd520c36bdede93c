// The ways in which a file or a text can fail to go whole.
ghost use Rattle.std.specs.Prelude.{◌≡◌};
ghost use Rattle.shelf_io.specs.declared.fault.LoadFault.TheVariants as load;

use std::alloc::{AllocError, AllocFailed};

/// Why a file was not read whole.
#[derive(Clone, Copy, Debug, PartialEq, Eq)]
pub enum LoadFault {
    /// A read failed. It comes only where the shelf's count of open and read rose.
    Failed,
    /// More than [`MAX_FILE`](crate::MAX_FILE) bytes were given.
    TooLong,
    /// Want of memory.
    Memory,
}

/// Why a text was not written whole. The first `written` bytes went out, fewer than all.
#[derive(Clone, Copy, Debug, PartialEq, Eq)]
pub enum PutFault {
    /// A write failed. It comes only where the count of the shelf or the sink rose.
    Failed { written: u64 },
    /// Want of memory.
    Memory { written: u64 },
}

impl From<AllocError> for LoadFault {
    ghost from_gives = { λ _ e. e ≡ load.Memory };

    fn from(_: AllocError) -> Self {
        LoadFault::Memory
    }
}

impl<T: Drop> From<AllocFailed<T>> for LoadFault {
    ghost from_gives = { λ _ e. e ≡ load.Memory };

    fn from(_: AllocFailed<T>) -> Self {
        LoadFault::Memory
    }
}
