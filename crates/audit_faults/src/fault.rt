//! What is wrong with an image that keeps its layout.
ghost use Rattle.std.specs.Prelude.{◌≡◌};
ghost use Rattle.audit_faults.specs.declared.fault.AuditFault.TheVariants.{Memory as WantsMemory};

use image_layout::Kind;
use std::alloc::{AllocError, AllocFailed};
use wheel_types::{Memory as NoMemory, Place};

/// The first difference between an image and the table of the wheel that it holds, in the order of the variants, or want of memory.
///
/// Lists are compared from the front, and an entry is told by its number from 0: `found` is what the image has there and `due` what
/// the wheel has, `None` where a list has ended. The two always differ.
#[derive(Clone, Copy, Debug, PartialEq, Eq)]
pub enum AuditFault {
    /// The wheel has more than 16,384 places.
    TooManyPlaces,
    /// A place.
    Places {
        at: u32,
        found: Option<Place>,
        due: Option<Place>,
    },
    /// A time cut, in femtoseconds.
    TimeCut {
        at: u32,
        found: Option<u64>,
        due: Option<u64>,
    },
    /// A ratio cut, its top and its bottom.
    RatioCut {
        at: u32,
        found: Option<(u32, u32)>,
        due: Option<(u32, u32)>,
    },
    /// A word of the set of state 1, which is the set of all places.
    Start {
        word: u32,
        found: u64,
        due: u64,
    },
    /// The least state with the phase and the set of an earlier one, the first such. An empty set past state 0 repeats state 0.
    Twice {
        first: u32,
        state: u32,
    },
    /// What a state says of the position.
    Kind {
        state: u32,
        found: Kind,
        due: Kind,
    },
    /// The entry of a column of a state's row. `due` is the state that the letter leads to, `None` where the image has no such state.
    Mismatch {
        state: u32,
        letter: u32,
        found: u32,
        due: Option<u32>,
    },
    /// A state that no word of letters reaches.
    Unreached {
        state: u32,
    },
    /// Memory ran out.
    Memory,
}

impl From<AllocError> for AuditFault {
    ghost from_gives = { λ _ fault. fault ≡ WantsMemory };

    fn from(_: AllocError) -> Self {
        AuditFault::Memory
    }
}

impl<T: Drop> From<AllocFailed<T>> for AuditFault {
    ghost from_gives = { λ _ fault. fault ≡ WantsMemory };

    fn from(_: AllocFailed<T>) -> Self {
        AuditFault::Memory
    }
}

impl From<NoMemory> for AuditFault {
    ghost from_gives = { λ _ fault. fault ≡ WantsMemory };

    fn from(_: NoMemory) -> Self {
        AuditFault::Memory
    }
}
