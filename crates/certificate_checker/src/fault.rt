//! Why a check is refused.
ghost use Rattle.std.specs.Prelude.{◌≡◌};

use cam_ranges::PlaceFault;
use wheel_types::Memory;

/// Why no answer is given.
#[derive(Clone, Copy, Debug, PartialEq, Eq)]
pub enum CheckFault {
    /// The wheel has more than 16,384 places.
    TooManyPlaces,
    /// Want of memory.
    Memory,
}

impl From<Memory> for CheckFault {
    ghost use Rattle.certificate_checker.specs.declared.fault.CheckFault.TheVariants.{Memory as NoMemory};

    ghost from_gives = { λ _ e. e ≡ NoMemory };

    fn from(_: Memory) -> Self {
        CheckFault::Memory
    }
}

/// The fault that a fault of places is.
pub fn of_places(fault: PlaceFault) -> CheckFault
    ensures { result ≡ CheckFault.TooManyPlaces → fault ≡ PlaceFault.TooMany }
{
    match fault {
        PlaceFault::TooMany => CheckFault::TooManyPlaces,
        PlaceFault::Memory => CheckFault::Memory,
    }
}
