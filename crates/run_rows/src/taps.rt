//! Runs with taps.

use crate::memory::{ending, outcome_with, shelf_of, words_of};
use crate::streams::Narrow;
use crate::wanting::Wanting;
use shelf_io::{MemSink, StdSink};
use std::alloc::{AllocError, Global};
use tap_board::{FirstFix, StopAfter, Tally};
use wheelsync::{Tap, run};

/// The number behind a word, or 0.
fn number_in(words: &str) -> u64 {
    words
        .trim_start_matches(char::is_alphabetic)
        .trim()
        .parse::<u64>()
        .unwrap_or(0)
}

/// What is told of words over a wheel and a capture, where notes is a stream that takes so many bytes.
fn told_of_narrow(
    alloc: Global,
    words: &str,
    room: u64,
    files: (&[u8], &[u8]),
    taps: Vec<Box<dyn Tap>>,
) -> Result<String, AllocError> {
    let mut shelf = shelf_of(alloc, files, Vec::new(alloc))?;
    let mut out = MemSink::new(alloc, Vec::new(alloc));
    let mut stream = Narrow::new(alloc, room);
    let mut notes = StdSink::new(alloc, &mut stream, true);
    let words = words_of(alloc, words)?;
    let status = run(alloc, &words, &mut shelf, &mut out, &mut notes, taps);
    drop(notes);
    let text = String::from_utf8_lossy(alloc, out.bytes())?;
    let said = String::from_utf8_lossy(alloc, stream.bytes())?;
    format!(in alloc; "{text} / {status:?} {said}")
}

/// What is told of words over a wheel and a capture with these taps, where a call fails, or notes is a stream that has room for so many
/// bytes.
fn told_over(
    alloc: Global,
    words: &str,
    failing: &str,
    files: (&[u8], &[u8]),
    taps: Vec<Box<dyn Tap>>,
) -> Result<Option<String>, AllocError> {
    if let Some(room) = failing.strip_prefix("notes room ") {
        let Ok(room) = room.parse::<u64>() else {
            return Ok(None);
        };
        return Ok(Some(told_of_narrow(alloc, words, room, files, taps)?));
    }
    let outcome = outcome_with(alloc, words, failing, files, taps)?;
    let text = String::from_utf8_lossy(alloc, outcome.out.bytes())?;
    let end = ending(alloc, outcome.status, &outcome.notes)?;
    Ok(Some(format!(in alloc; "{text} / {end}")?))
}

/// What is told of words over a wheel and a capture with taps, whose words have commas between them.
pub fn told_of_taps(
    alloc: Global,
    asked: &str,
    words: &str,
    failing: &str,
    files: (&[u8], &[u8]),
) -> Result<Option<String>, AllocError> {
    let mut taps: Vec<Box<dyn Tap>> = Vec::new(alloc);
    for word in asked.split(',') {
        let word = word.trim();
        let number = number_in(word);
        if word == "tally" {
            taps.push(Box::new(alloc, Tally::new(alloc))?)?;
        } else if word == "first" {
            taps.push(Box::new(alloc, FirstFix::new(alloc))?)?;
        } else if word.starts_with("stop") {
            taps.push(Box::new(alloc, StopAfter::new(alloc, number))?)?;
        } else if word.starts_with("memory") {
            taps.push(Box::new(alloc, Wanting::new(alloc, number))?)?;
        } else if word == "close memory" {
            taps.push(Box::new(alloc, Wanting::new(alloc, 0))?)?;
        } else if !word.is_empty() {
            return Ok(None);
        }
    }
    told_over(alloc, words, failing, files, taps)
}
