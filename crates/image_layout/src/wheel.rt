//! The wheel that an image holds.
ghost use Rattle.std.specs.Prelude.{◌≡◌, IfOk};
ghost use Rattle.image_layout.specs.Fields.{wheel_parts_of};
ghost use Rattle.image_layout.specs.Keeps.{AreLaid};

use crate::edges::{keep, slots};
use crate::sections::Sections;
use crate::words::word_at;
use std::alloc::Global;
use wheel_types::{Channel, List, Memory, WheelParts};

/// The parts of the wheel of the header and the slots.
///
/// # Errors
/// Want of memory.
pub fn parts(alloc: Global, bytes: &[u8], sections: &Sections) -> Result<WheelParts, Memory>
    requires { AreLaid sections.now bytes.now }
    ensures { IfOk result (λ w. w ≡ wheel_parts_of bytes.now) }
{
    Ok(WheelParts {
        degrees: word_at(bytes, 32),
        slots: List::from_slice(alloc, slots(bytes, sections))?,
        crank: keep(bytes, Channel::Crank),
        cam1: keep(bytes, Channel::Cam1),
        cam2: keep(bytes, Channel::Cam2),
        cam1_early: word_at(bytes, 40),
        cam1_late: word_at(bytes, 44),
        cam2_early: word_at(bytes, 48),
        cam2_late: word_at(bytes, 52),
        rpm_low: word_at(bytes, 56),
        rpm_high: word_at(bytes, 60),
        rn: word_at(bytes, 64),
        rd: word_at(bytes, 68),
    })
}
