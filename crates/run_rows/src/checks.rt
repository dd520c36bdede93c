//! Checks of certificates over files in memory.

use crate::memory::{bytes_of, ending, fails_of, file_of, no_taps, words_of};
use shelf_io::{MemShelf, MemSink};
use std::alloc::{AllocError, Global};
use wheelsync::run;

/// A shelf with the files `wheel`, `capture`, `report` and `cert`.
fn shelf_of(alloc: Global, files: [&str; 4], fails: Vec<u64>) -> Result<MemShelf, AllocError> {
    let [wheel, capture, report, cert] = files;
    let mut all = Vec::new(alloc);
    all.push(file_of(alloc, "wheel", &bytes_of(alloc, wheel)?)?)?;
    all.push(file_of(alloc, "capture", &bytes_of(alloc, capture)?)?)?;
    all.push(file_of(alloc, "report", &bytes_of(alloc, report)?)?)?;
    all.push(file_of(alloc, "cert", &bytes_of(alloc, cert)?)?)?;
    Ok(MemShelf::new(alloc, all, 1 << 16, fails))
}

/// What is told of words over the four files of a check, where a call fails.
pub fn told_of_check(
    alloc: Global,
    words: &str,
    failing: &str,
    files: [&str; 4],
) -> Result<Option<String>, AllocError> {
    let mut shelf = shelf_of(alloc, files, fails_of(alloc, failing, "shelf")?)?;
    let mut out = MemSink::new(alloc, fails_of(alloc, failing, "out")?);
    let mut notes = MemSink::new(alloc, fails_of(alloc, failing, "notes")?);
    let words = words_of(alloc, words)?;
    let status = run(
        alloc,
        &words,
        &mut shelf,
        &mut out,
        &mut notes,
        no_taps(alloc),
    );
    let text = String::from_utf8_lossy(alloc, out.bytes())?;
    let end = ending(alloc, status, &notes)?;
    Ok(Some(format!(in alloc; "{text} / {end}")?))
}
