//! The parts of wheels, from texts.

use std::alloc::{AllocError, Global};
use wheel_types::{Keep, List, WheelParts};

/// The numbers of a text with a blank between two of them.
pub fn numbers_of(alloc: Global, text: &str) -> Result<Vec<u64>, AllocError> {
    let mut numbers = Vec::new(alloc);
    for word in text.split(' ') {
        if let Ok(number) = word.parse() {
            numbers.push(number)?;
        }
    }
    Ok(numbers)
}

/// So many slots, every second one of which has the crank's level 1.
fn alternating(alloc: Global, count: usize) -> Result<List<u8>, AllocError> {
    let mut slots = Vec::new(alloc);
    for slot in 0..count {
        slots.push(if slot % 2 == 0 { 1 } else { 0 })?;
    }
    Ok(List::from_vec(slots))
}

/// Adds the slots of a word such as `3*10`, a digit each, so many times.
fn push_times(slots: &mut Vec<u8>, times: u32, digits: &str) -> Result<(), AllocError> {
    for _ in 0..times {
        for digit in digits.bytes() {
            slots.push(digit.wrapping_sub(b'0'))?;
        }
    }
    Ok(())
}

/// The slots of a text.
fn slots_of(alloc: Global, text: &str) -> Result<List<u8>, AllocError> {
    if let Some(count) = text.strip_prefix("alternating ") {
        return alternating(alloc, count.parse().unwrap_or(0));
    }
    let mut slots = Vec::new(alloc);
    for word in text.split(' ') {
        if let Some((times, digits)) = word.split_once('*') {
            push_times(&mut slots, times.parse().unwrap_or(0), digits)?;
        } else if let Ok(slot) = word.parse() {
            slots.push(slot)?;
        }
    }
    Ok(List::from_vec(slots))
}

/// Two numbers with a comma between them.
fn pair_of(text: &str) -> Option<(u32, u32)> {
    let (first, second) = text.split_once(',')?;
    Some((first.parse().ok()?, second.parse().ok()?))
}

fn keep_of(text: &str) -> Option<Keep> {
    match text {
        "rising" => Some(Keep::Rising),
        "falling" => Some(Keep::Falling),
        "both" => Some(Keep::Both),
        _ => None,
    }
}

/// The parts where one of them is as a text says.
fn changed(parts: WheelParts, key: &str, value: &str) -> Option<WheelParts> {
    if let Some(keep) = keep_of(value) {
        return with_keep(parts, key, keep);
    }
    if let Some((first, second)) = pair_of(value) {
        return with_pair(parts, key, first, second);
    }
    match key {
        "degrees" => Some(WheelParts {
            degrees: value.parse().ok()?,
            ..parts
        }),
        _ => None,
    }
}

/// The parts where these edges of a channel are kept.
fn with_keep(parts: WheelParts, key: &str, keep: Keep) -> Option<WheelParts> {
    match key {
        "crank" => Some(WheelParts {
            crank: keep,
            ..parts
        }),
        "cam1" => Some(WheelParts {
            cam1: keep,
            ..parts
        }),
        "cam2" => Some(WheelParts {
            cam2: keep,
            ..parts
        }),
        _ => None,
    }
}

/// The parts where two of them are these numbers: early and late, or low and high, or the two of the ratio.
fn with_pair(parts: WheelParts, key: &str, first: u32, second: u32) -> Option<WheelParts> {
    match key {
        "cam1" => Some(WheelParts {
            cam1_early: first,
            cam1_late: second,
            ..parts
        }),
        "cam2" => Some(WheelParts {
            cam2_early: first,
            cam2_late: second,
            ..parts
        }),
        "rpm" => Some(WheelParts {
            rpm_low: first,
            rpm_high: second,
            ..parts
        }),
        "ratio" => Some(WheelParts {
            rn: first,
            rd: second,
            ..parts
        }),
        _ => None,
    }
}

/// The parts with these slots, and those that a text names, or `None` where the text is none of parts.
pub fn parts_of(alloc: Global, slots: &str, named: &str) -> Result<Option<WheelParts>, AllocError> {
    let mut parts = WheelParts {
        degrees: 360,
        slots: slots_of(alloc, slots)?,
        crank: Keep::Rising,
        cam1: Keep::Both,
        cam2: Keep::Both,
        cam1_early: 0,
        cam1_late: 0,
        cam2_early: 0,
        cam2_late: 0,
        rpm_low: 60,
        rpm_high: 6000,
        rn: 3,
        rd: 2,
    };
    for word in named.split_whitespace() {
        let (key, value) = word.split_once('=').unwrap_or((word, ""));
        parts = match changed(parts, key, value) {
            Some(parts) => parts,
            None => return Ok(None),
        };
    }
    Ok(Some(parts))
}
