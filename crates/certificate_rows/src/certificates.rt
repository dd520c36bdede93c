//! Certificates, made of what instants prove.
ghost use Rattle.std.specs.Prelude.{IsTrue, IfSome, ◌<ℤ◌};
ghost use Rattle.plain_motion.specs.Sets.{last_of};

use crate::Told;
use crate::captures::{capture_of, wheel_of};
use crate::texts::told_of_cert_lines;
use edge_angles::find_edges;
use pair_certificate::{CertKind, CertLine};
use plain_motion::{PlaceFault, PlainSet};
use std::alloc::{AllocError, Global};
use wheel_types::{Instant, List, Memory, Place, Verdict, Wheel};

/// The longest time that a set takes.
const LONG: u128 = 1_000_000_000_000_000_000_000_000;

/// Whether the instant is later than the set's last one.
fn is_later(set: &PlainSet, instant: &Instant) -> bool
    ensures { IsTrue result → IfSome (last_of set.now) (λ last. last <ℤ instant.now.time) }
{
    match set.last() {
        Some(last) => last < instant.time,
        None => true,
    }
}

/// Where the motions began that end at the least place, if there are any.
fn first_start(set: &PlainSet) -> Option<Place> {
    match set.ends() {
        [end, ..] => Some(set.start_of(*end)),
        [] => None,
    }
}

/// What the line of a verdict says, after the set's last instant.
fn kind_of(set: &PlainSet, verdict: Verdict) -> Option<CertKind> {
    match verdict {
        Verdict::At { .. } => Some(CertKind::At {
            a: first_start(set)?,
        }),
        Verdict::Open { a, b } => Some(CertKind::Open { a, b }),
        Verdict::Lost => Some(CertKind::Lost),
    }
}

/// The line of an instant that a set takes, if it is later than those before it.
fn next_line(
    alloc: Global,
    set: &mut PlainSet,
    index: u64,
    instant: &Instant,
) -> Result<Option<CertLine>, AllocError> {
    if !is_later(set, instant) || instant.time.unsigned_abs() > LONG {
        return Ok(None);
    }
    let Ok(verdict) = set.step(instant) else {
        return Err(AllocError);
    };
    let Some(kind) = kind_of(set, verdict) else {
        return Ok(None);
    };
    let cover = List::from_slice(alloc, set.ends())?;
    Ok(Some(CertLine { index, kind, cover }))
}

/// What is told of instants that a set takes: the lines of their certificate.
fn told_of_instants(alloc: Global, mut set: PlainSet, instants: &[Instant]) -> Told {
    let mut lines = Vec::new(alloc);
    let mut index = 0_u64;
    for instant in instants {
        index = index.wrapping_add(1);
        let Some(line) = next_line(alloc, &mut set, index, instant)? else {
            return Ok(None);
        };
        lines.push(line)?;
    }
    told_of_cert_lines(alloc, &lines)
}

/// The set of a wheel before any instant, if it has few enough places.
fn set_of(alloc: Global, wheel: &Wheel) -> Result<Option<PlainSet>, AllocError> {
    let edges = match find_edges(alloc, wheel) {
        Ok(edges) => edges,
        Err(Memory) => return Err(AllocError),
    };
    match PlainSet::new(alloc, wheel, &edges) {
        Ok(set) => Ok(Some(set)),
        Err(PlaceFault::TooMany) => Ok(None),
        Err(PlaceFault::Memory) => Err(AllocError),
    }
}

/// The certificate of a capture, if the texts are of a wheel and a capture.
pub fn told_of_capture(alloc: Global, wheel: &str, capture: &str) -> Told {
    let Some(wheel) = wheel_of(alloc, wheel)? else {
        return Ok(None);
    };
    let capture = capture_of(alloc, &wheel, capture)?;
    match set_of(alloc, &wheel)? {
        Some(set) => told_of_instants(alloc, set, capture.instants.as_slice()),
        None => Ok(None),
    }
}
