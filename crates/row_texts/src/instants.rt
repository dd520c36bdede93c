//! Instants of rows.

use std::alloc::{AllocError, Global};
use wheel_types::{Instant, Pol};

/// Femtoseconds of a millisecond.
const MS: i128 = 1_000_000_000_000;

/// The edge of a channel that a text begins with, if it does so, and what follows it.
fn edge_on<'a>(text: &'a str, channel: char) -> (Option<Pol>, &'a str) {
    let Some(rest) = text.strip_prefix(channel) else {
        return (None, text);
    };
    if let Some(rest) = rest.strip_prefix('+') {
        return (Some(Pol::Rise), rest);
    }
    match rest.strip_prefix('-') {
        Some(rest) => (Some(Pol::Fall), rest),
        None => (None, text),
    }
}

/// The femtoseconds of a time, as `15ms` or `15fs`.
fn time_of(text: &str) -> Option<i128> {
    if let Some(number) = text.strip_suffix("ms") {
        return number.parse::<i128>().ok()?.checked_mul(MS);
    }
    text.strip_suffix("fs")?.parse::<i128>().ok()
}

/// The instant that a text names, as `C+1- 15ms`.
pub fn instant_of(text: &str) -> Option<Instant> {
    let (shape, time) = text.split_once(' ')?;
    let time = time_of(time)?;
    let (crank, cams) = edge_on(shape, 'C');
    let (cam1, second) = edge_on(cams, '1');
    let (cam2, rest) = edge_on(second, '2');
    if !rest.is_empty() {
        return None;
    }
    if crank.is_some() || cam1.is_some() || cam2.is_some() {
        Some(Instant {
            time,
            crank,
            cam1,
            cam2,
        })
    } else {
        None
    }
}

/// The instants that a text names, with a comma and a blank between two of them.
pub fn instants_of(alloc: Global, text: &str) -> Result<Option<Vec<Instant>>, AllocError> {
    let mut instants = Vec::new(alloc);
    for part in text.split(", ") {
        let Some(instant) = instant_of(part) else {
            return Ok(None);
        };
        instants.push(instant)?;
    }
    Ok(Some(instants))
}
