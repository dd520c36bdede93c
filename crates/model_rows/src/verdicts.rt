//! What instants prove, and the legal steps of places.
ghost use Rattle.std.specs.Prelude.{IsTrue, IfSome, ◌<ℤ◌};
ghost use Rattle.plain_motion.specs.Sets.{last_of};

use crate::Told;
use crate::model::{Model, model_of};
use crate::places::{is_place, place_of, text_of_place};
use plain_motion::{PlaceFault, PlainSet};
use row_texts::{instant_of, instants_of};
use std::alloc::{AllocError, Global};
use wheel_types::{Instant, Memory, Place, Verdict};

/// The longest time that a set takes.
const LONG: u128 = 1_000_000_000_000_000_000_000_000;

/// Whether the instant is later than the set's last one.
fn is_later(set: &PlainSet, instant: &Instant) -> bool
    ensures { IsTrue result → IfSome (last_of set.now) (λ last. last <ℤ instant.now.time) }
{
    match set.last() {
        Some(last) => last < instant.time,
        None => true,
    }
}

/// The text of a verdict.
fn text_of_verdict(alloc: Global, verdict: Verdict) -> Result<String, AllocError> {
    match verdict {
        Verdict::At { j, slot } => format!(in alloc; "at {j} slot {slot}"),
        Verdict::Open { a, b } => {
            let (a, b) = (text_of_place(alloc, a)?, text_of_place(alloc, b)?);
            format!(in alloc; "open {a} {b}")
        }
        Verdict::Lost => String::from_str(alloc, "lost"),
    }
}

/// The verdicts of instants in turn, if each is later than the one before it.
fn verdicts_of(alloc: Global, mut set: PlainSet, instants: &[Instant]) -> Told {
    let mut text = String::new(alloc);
    for instant in instants {
        if !is_later(&set, instant) || instant.time.unsigned_abs() > LONG {
            return Ok(None);
        }
        let Ok(verdict) = set.step(instant) else {
            return Err(AllocError);
        };
        if !text.is_empty() {
            text.push_str("; ")?;
        }
        text.push_str(&text_of_verdict(alloc, verdict)?)?;
    }
    Ok(Some(text))
}

/// What instants prove over a wheel.
pub fn told_of_verdicts(alloc: Global, lines: &[String], instants: &str) -> Told {
    let Some(model) = model_of(alloc, lines)? else {
        return Ok(None);
    };
    let Some(instants) = instants_of(alloc, instants)? else {
        return Ok(None);
    };
    match PlainSet::new(alloc, &model.wheel, &model.edges) {
        Ok(set) => verdicts_of(alloc, set, &instants),
        Err(PlaceFault::TooMany) => Ok(Some(String::from_str(alloc, "too many")?)),
        Err(PlaceFault::Memory) => Err(AllocError),
    }
}

/// The legal step of a place at a first instant.
fn legal(alloc: Global, model: &Model, from: Place, instant: &Instant) -> Told {
    let set = match PlainSet::new(alloc, &model.wheel, &model.edges) {
        Ok(set) => set,
        Err(PlaceFault::TooMany) => return Ok(None),
        Err(PlaceFault::Memory) => return Err(AllocError),
    };
    if is_place(model, from) && instant.time.unsigned_abs() <= LONG {
        return match set.legal(from, instant) {
            Some(to) => Ok(Some(text_of_place(alloc, to)?)),
            None => Ok(Some(String::from_str(alloc, "none")?)),
        };
    }
    Ok(None)
}

/// Where the legal step of a place ends at a first instant.
pub fn told_of_legal(alloc: Global, lines: &[String], from: &str, instant: &str) -> Told {
    let Some(model) = model_of(alloc, lines)? else {
        return Ok(None);
    };
    match (place_of(from), instant_of(instant)) {
        (Some(from), Some(instant)) => legal(alloc, &model, from, &instant),
        _ => Ok(None),
    }
}
