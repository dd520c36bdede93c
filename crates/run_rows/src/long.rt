//! Replays of long captures: how many lines the report has, and which is the last.

use crate::memory::{bytes_of, ending, outcome_of};
use std::alloc::{AllocError, Global};

/// Adds copies of a text, as `9 × TEXT` asks for, where `%` stands for the copy's number from 0.
fn push_copies(alloc: Global, bytes: &mut Vec<u8>, asked: &str) -> Result<(), AllocError> {
    let Some((count, text)) = asked.split_once(" × ") else {
        return Ok(());
    };
    for number in 0..count.parse::<u64>().unwrap_or(0) {
        let number = format!(in alloc; "{number}")?;
        let copy = text.replace(alloc, '%', &number)?;
        bytes.extend_from_slice(copy.as_bytes())?;
    }
    Ok(())
}

/// How many lines a text has, and the last of them.
fn count_of(text: &str) -> (usize, &str) {
    let last = text.lines().last().unwrap_or("");
    (text.lines().count(), last)
}

/// What is told of a replay of a capture that goes on with copies of rows.
pub fn told_of_long(
    alloc: Global,
    wheel: &str,
    front: &str,
    copies: &str,
) -> Result<Option<String>, AllocError> {
    let wheel = bytes_of(alloc, wheel)?;
    let mut capture = bytes_of(alloc, front)?;
    push_copies(alloc, &mut capture, copies)?;
    let outcome = outcome_of(alloc, "replay wheel capture", "", (&wheel, &capture))?;
    let report = String::from_utf8_lossy(alloc, outcome.out.bytes())?;
    let (count, last) = count_of(&report);
    let end = ending(alloc, outcome.status, &outcome.notes)?;
    Ok(Some(format!(in alloc; "{count} lines, the last {last} / {end}")?))
}
