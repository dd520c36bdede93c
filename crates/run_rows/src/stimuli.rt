//! Stimuli that are made and replayed.

use crate::memory::{bytes_of, ending, no_taps, shelf_of, words_of};
use shelf_io::{MemShelf, MemSink};
use std::alloc::{AllocError, Global};
use wheelsync::{Status, run};

/// What a run came to.
#[derive(Drop)]
struct Came {
    status: Status,
    out: MemSink,
    notes: MemSink,
}

/// Runs words over a shelf.
fn outcome_of(alloc: Global, words: &str, shelf: &mut MemShelf) -> Result<Came, AllocError> {
    let mut out = MemSink::new(alloc, Vec::new(alloc));
    let mut notes = MemSink::new(alloc, Vec::new(alloc));
    let words = words_of(alloc, words)?;
    let status = run(alloc, &words, shelf, &mut out, &mut notes, no_taps(alloc));
    Ok(Came { status, out, notes })
}

/// What is told of a stimulus, whose form, seed and gaps are given, and of its replay: how many lines the report has, how many of them
/// are lost, and how the replay ended; or how the first run ended, where it was not done.
pub fn told_of_stimulus(
    alloc: Global,
    wheel: &str,
    asked: &str,
) -> Result<Option<String>, AllocError> {
    let wheel = bytes_of(alloc, wheel)?;
    let mut shelf = shelf_of(alloc, (&wheel, &[]), Vec::new(alloc))?;
    let words = format!(in alloc; "stim wheel {asked} made")?;
    let made = outcome_of(alloc, &words, &mut shelf)?;
    if made.status != Status::Done {
        let end = ending(alloc, made.status, &made.notes)?;
        return Ok(Some(format!(in alloc; "none / {end}")?));
    }
    let replayed = outcome_of(alloc, "replay wheel made", &mut shelf)?;
    let report = String::from_utf8_lossy(alloc, replayed.out.bytes())?;
    let lines = report.lines().count();
    let lost = report.lines().filter(|line| line.ends_with("lost")).count();
    let end = ending(alloc, replayed.status, &replayed.notes)?;
    Ok(Some(format!(in alloc; "{lines} lines, {lost} lost / {end}")?))
}
