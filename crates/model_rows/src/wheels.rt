//! Wheel files: read, refused, and printed.

use crate::Told;
use crate::model::wheel_of;
use crate::texts::{bytes_of, text_of};
use std::alloc::{AllocError, Global};
use std::fmt::Write;
use wheel_pattern::{PatternFault, read_wheel, write_wheel};
use wheel_types::{Memory, Wheel};

/// The degrees and the slots of a wheel.
fn slots_of(alloc: Global, wheel: &Wheel) -> Result<String, AllocError> {
    let parts = wheel.parts();
    let mut text = format!(in alloc; "{} ", parts.degrees)?;
    for slot in parts.slots.as_slice() {
        write!(text, "{slot}")?;
    }
    Ok(text)
}

/// The polarities, phasings and limits of a wheel.
fn rest_of(alloc: Global, wheel: &Wheel) -> Result<String, AllocError> {
    let p = wheel.parts();
    let keeps = format!(in alloc; "{:?} {:?} {:?}", p.crank, p.cam1, p.cam2)?;
    let first = format!(in alloc; "{} {}", p.cam1_early, p.cam1_late)?;
    let second = format!(in alloc; "{} {}", p.cam2_early, p.cam2_late)?;
    let limits = format!(in alloc; "{} {} {}/{}", p.rpm_low, p.rpm_high, p.rn, p.rd)?;
    format!(in alloc; "{keeps}, {first}, {second}, {limits}")
}

/// What is told of a file's bytes: the parts of its wheel, or its fault.
fn told_of(alloc: Global, bytes: &[u8]) -> Told {
    match read_wheel(alloc, bytes) {
        Ok(wheel) => {
            let slots = slots_of(alloc, &wheel)?;
            let rest = rest_of(alloc, &wheel)?;
            Ok(Some(format!(in alloc; "{slots} {rest}")?))
        }
        Err(PatternFault::Memory) => Err(AllocError),
        Err(fault) => Ok(Some(format!(in alloc; "{fault:?}")?)),
    }
}

/// What is told of a file of these lines.
pub fn told_of_file(alloc: Global, lines: &[String]) -> Told {
    told_of(alloc, text_of(alloc, lines)?.as_bytes())
}

/// What is told of a file of the bytes that a text stands for.
pub fn told_of_bytes(alloc: Global, text: &str) -> Told {
    told_of(alloc, &bytes_of(alloc, text)?)
}

/// How many slots a wheel has.
pub fn told_of_size(alloc: Global, lines: &[String]) -> Told {
    let Some(wheel) = wheel_of(alloc, lines)? else {
        return Ok(None);
    };
    Ok(Some(format!(in alloc; "{} slots", wheel.parts().slots.as_slice().len())?))
}

/// The file of a wheel as it is printed.
pub fn told_of_print(alloc: Global, lines: &[String]) -> Told {
    let Some(wheel) = wheel_of(alloc, lines)? else {
        return Ok(None);
    };
    match write_wheel(alloc, &wheel) {
        Ok(bytes) => Ok(Some(String::from_utf8_lossy(alloc, &bytes)?)),
        Err(Memory) => Err(AllocError),
    }
}

/// How many slots a wheel has, and whether the file that is printed of it is read back as the same wheel.
pub fn told_of_back(alloc: Global, lines: &[String]) -> Told {
    let Some(wheel) = wheel_of(alloc, lines)? else {
        return Ok(None);
    };
    let Ok(bytes) = write_wheel(alloc, &wheel) else {
        return Err(AllocError);
    };
    let slots = slots_of(alloc, &wheel)?;
    let rest = rest_of(alloc, &wheel)?;
    let before = format!(in alloc; "{slots} {rest}")?;
    let same = match told_of(alloc, &bytes)? {
        Some(after) => after.as_str() == before.as_str(),
        None => false,
    };
    Ok(Some(format!(in alloc;
        "{} slots, the same: {same}",
        wheel.parts().slots.as_slice().len()
    )?))
}
