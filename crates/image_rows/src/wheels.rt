//! Images of compiled wheels.

use crate::Told;
use crate::bytes::image_of;
use row_texts::parts_of;
use std::alloc::{AllocError, Global};
use table_images::{CompileFault, compile};
use wheel_types::Wheel;

/// As many states as an image may have.
const MOST_STATES: u32 = 65_535;

/// The wheel of slots and parts, or `None` where they are of none.
fn wheel_of(alloc: Global, slots: &str, parts: &str) -> Result<Option<Wheel>, AllocError> {
    match parts_of(alloc, slots, parts)? {
        Some(parts) => Ok(Wheel::build(parts).ok()),
        None => Ok(None),
    }
}

/// The text of a refusal.
fn text_of_refusal(alloc: Global, fault: CompileFault) -> Told {
    match fault {
        CompileFault::TooManyPlaces => Ok(Some(String::from_str(alloc, "TooManyPlaces")?)),
        CompileFault::TooLarge { limit } => Ok(Some(format!(in alloc; "TooLarge {limit}")?)),
        CompileFault::Memory => Err(AllocError),
    }
}

/// The place of the first byte that is another one than wanted, up to the end of the shorter bytes.
fn first_difference(bytes: &[u8], wanted: &[u8]) -> u64 {
    let mut place = 0;
    for (byte, want) in bytes.iter().zip(wanted.iter()) {
        if *byte != *want {
            return place;
        }
        place = place.wrapping_add(1);
    }
    place
}

/// What is told of bytes beside those that are wanted.
fn compared(alloc: Global, bytes: &[u8], wanted: &[u8]) -> Result<String, AllocError> {
    let length = bytes.len();
    if bytes == wanted {
        return format!(in alloc; "the image of {length} bytes");
    }
    let place = first_difference(bytes, wanted);
    format!(in alloc; "{length} bytes, other ones from byte {place} on")
}

/// The length of bytes, their sum, and the sum of each one times its place and one, by 64 bits.
pub fn summed(alloc: Global, bytes: &[u8]) -> Result<String, AllocError> {
    let mut sum = 0u64;
    let mut weighed = 0u64;
    let mut weight = 0u64;
    for byte in bytes.iter() {
        weight = weight.wrapping_add(1);
        sum = sum.wrapping_add(u64::from(*byte));
        weighed = weighed.wrapping_add(weight.wrapping_mul(u64::from(*byte)));
    }
    let length = bytes.len();
    format!(in alloc; "{length} bytes, sums {sum} {weighed}")
}

/// Whether a wheel is compiled to the bytes that the last fields of a row name.
pub fn told_of_compiled(alloc: Global, slots: &str, parts: &str, image: &[String]) -> Told {
    let Some(wheel) = wheel_of(alloc, slots, parts)? else {
        return Ok(None);
    };
    let Some(wanted) = image_of(alloc, image)? else {
        return Ok(None);
    };
    match compile(alloc, &wheel, MOST_STATES) {
        Ok(bytes) => Ok(Some(compared(alloc, bytes.as_slice(), wanted.as_slice())?)),
        Err(fault) => text_of_refusal(alloc, fault),
    }
}

/// The length and sums of the bytes that a wheel is compiled to within a limit on its states, or why there are none.
pub fn told_of_sums(alloc: Global, slots: &str, parts: &str, limit: &str) -> Told {
    let Ok(limit) = limit.parse::<u32>() else {
        return Ok(None);
    };
    let Some(wheel) = wheel_of(alloc, slots, parts)? else {
        return Ok(None);
    };
    match compile(alloc, &wheel, limit) {
        Ok(bytes) => Ok(Some(summed(alloc, bytes.as_slice())?)),
        Err(fault) => text_of_refusal(alloc, fault),
    }
}
