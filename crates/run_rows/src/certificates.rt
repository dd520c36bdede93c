//! Replays with a certificate over files in memory.

use crate::memory::{bytes_of, ending, fails_of, no_taps, shelf_of, words_of};
use shelf_io::MemSink;
use std::alloc::{AllocError, Global};
use wheelsync::run;

/// What is told of words over a wheel and a capture, where a call fails: what out got, what the file `cert` has, and how it ended.
pub fn told_of_certified(
    alloc: Global,
    words: &str,
    failing: &str,
    files: (&[u8], &[u8]),
) -> Result<Option<String>, AllocError> {
    let mut shelf = shelf_of(alloc, files, fails_of(alloc, failing, "shelf")?)?;
    let mut out = MemSink::new(alloc, fails_of(alloc, failing, "out")?);
    let mut notes = MemSink::new(alloc, fails_of(alloc, failing, "notes")?);
    let words = words_of(alloc, words)?;
    let status = run(
        alloc,
        &words,
        &mut shelf,
        &mut out,
        &mut notes,
        no_taps(alloc),
    );
    let text = String::from_utf8_lossy(alloc, out.bytes())?;
    let cert = match shelf.file("cert") {
        None => String::from_str(alloc, "no file")?,
        Some(bytes) => String::from_utf8_lossy(alloc, bytes)?,
    };
    let end = ending(alloc, status, &notes)?;
    Ok(Some(format!(in alloc; "{text} / {cert} / {end}")?))
}
