//! Captures that end early.

use crate::memory::{Outcome, outcome_of};
use std::alloc::{AllocError, Global};
use wheelsync::Status;

/// Whether a run of a capture's front is done without a word on notes, or refused with one, and wrote a front of the report.
fn is_well(outcome: &Outcome, report: &[u8]) -> bool {
    let quiet = outcome.notes.bytes().is_empty();
    let ends = match outcome.status {
        Status::Done => quiet,
        Status::Refused => !quiet,
        _ => false,
    };
    ends && report.starts_with(outcome.out.bytes())
}

/// What is told of all replays of a capture's fronts: their number, or the length of the first that is not well.
pub fn told_of_prefixes(
    alloc: Global,
    wheel: &[u8],
    capture: &[u8],
) -> Result<Option<String>, AllocError> {
    let words = "replay wheel capture";
    let whole = outcome_of(alloc, words, "", (wheel, capture))?;
    for length in 0..capture.len() {
        let front = outcome_of(alloc, words, "", (wheel, &capture[..length]))?;
        if !is_well(&front, whole.out.bytes()) {
            return Ok(Some(format!(in alloc; "not well: {length}")?));
        }
    }
    Ok(Some(format!(in alloc; "{} fronts", capture.len())?))
}
