//! Runs over files in memory.
ghost use Rattle.std.specs.Prelude.{◌≡◌, IfOk, string_bytes};

use shelf_io::{MemShelf, MemSink};
use std::alloc::{AllocError, Global};
use wheelsync::{Status, Tap, run};

/// Words with a blank between two of them, where `~` stands for a blank in a word.
pub fn words_of(alloc: Global, words: &str) -> Result<Vec<String>, AllocError> {
    let mut all = Vec::new(alloc);
    for word in words.split(' ') {
        all.push(word.replace(alloc, '~', " ")?)?;
    }
    Ok(all)
}

pub fn no_taps(alloc: Global) -> Vec<Box<dyn Tap>> {
    Vec::new(alloc)
}

/// The bytes of a file, where `�` stands for the byte 255.
pub fn bytes_of(alloc: Global, text: &str) -> Result<Vec<u8>, AllocError> {
    let mut bytes = Vec::new(alloc);
    for (number, part) in text.split('�').enumerate() {
        if number > 0 {
            bytes.push(255)?;
        }
        bytes.extend_from_slice(part.as_bytes())?;
    }
    Ok(bytes)
}

/// A file for a shelf.
pub fn file_of(alloc: Global, name: &str, bytes: &[u8]) -> Result<(String, Vec<u8>), AllocError>
    ensures { IfOk result (λ file. string_bytes file.0 ≡ name.now) }
{
    Ok((String::from_str(alloc, name)?, bytes.to_vec(alloc)?))
}

/// A shelf with the files `wheel` and `capture`.
pub fn shelf_of(
    alloc: Global,
    files: (&[u8], &[u8]),
    fails: Vec<u64>,
) -> Result<MemShelf, AllocError> {
    let mut all = Vec::new(alloc);
    all.push(file_of(alloc, "wheel", files.0)?)?;
    all.push(file_of(alloc, "capture", files.1)?)?;
    Ok(MemShelf::new(alloc, all, 1 << 16, fails))
}

/// The call that fails, where words give its kind and a number.
pub fn fails_of(alloc: Global, failing: &str, kind: &str) -> Result<Vec<u64>, AllocError> {
    let mut numbers = Vec::new(alloc);
    let number = failing.strip_prefix(kind).unwrap_or("");
    if let Ok(number) = number.trim().parse::<u64>() {
        numbers.push(number)?;
    }
    Ok(numbers)
}

/// A run's status, and what out and notes got.
#[derive(Drop)]
pub struct Outcome {
    pub status: Status,
    pub out: MemSink,
    pub notes: MemSink,
}

/// Runs words over the files `wheel` and `capture` with these taps, where a call fails.
pub fn outcome_with(
    alloc: Global,
    words: &str,
    failing: &str,
    files: (&[u8], &[u8]),
    taps: Vec<Box<dyn Tap>>,
) -> Result<Outcome, AllocError> {
    let mut shelf = shelf_of(alloc, files, fails_of(alloc, failing, "shelf")?)?;
    let mut out = MemSink::new(alloc, fails_of(alloc, failing, "out")?);
    let mut notes = MemSink::new(alloc, fails_of(alloc, failing, "notes")?);
    let words = words_of(alloc, words)?;
    let status = run(alloc, &words, &mut shelf, &mut out, &mut notes, taps);
    Ok(Outcome { status, out, notes })
}

/// Runs words over the files `wheel` and `capture` without taps, where a call fails.
pub fn outcome_of(
    alloc: Global,
    words: &str,
    failing: &str,
    files: (&[u8], &[u8]),
) -> Result<Outcome, AllocError> {
    outcome_with(alloc, words, failing, files, no_taps(alloc))
}

/// The status of a run, and what notes got.
pub fn ending(alloc: Global, status: Status, notes: &MemSink) -> Result<String, AllocError> {
    let line = String::from_utf8_lossy(alloc, notes.bytes())?;
    let blank = if line.is_empty() { "" } else { " " };
    format!(in alloc; "{status:?}{blank}{line}")
}

/// What is told of words over a wheel and a capture, where a call fails.
pub fn told_of_words(
    alloc: Global,
    words: &str,
    failing: &str,
    files: (&[u8], &[u8]),
) -> Result<Option<String>, AllocError> {
    let outcome = outcome_of(alloc, words, failing, files)?;
    let out = String::from_utf8_lossy(alloc, outcome.out.bytes())?;
    let end = ending(alloc, outcome.status, &outcome.notes)?;
    Ok(Some(format!(in alloc; "{out} / {end}")?))
}

/// What is told of a replay with options.
pub fn told_of_replay(
    alloc: Global,
    options: &str,
    files: (&[u8], &[u8]),
) -> Result<Option<String>, AllocError> {
    let words = format!(in alloc; "replay wheel capture{options}")?;
    told_of_words(alloc, &words, "", files)
}
