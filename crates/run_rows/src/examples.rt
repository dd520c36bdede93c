//! Runs over the files beside the program.

use crate::memory::{ending, no_taps, words_of};
use shelf_io::{MemSink, RealShelf};
use std::alloc::AllocError;
use std::fs;
use wheelsync::run;

/// What is told of words over the files: the status, and whether out got what a file has, and what notes got.
pub fn told_of_files(
    rt: &HostRuntime,
    words: &str,
    report: &str,
) -> Result<Option<String>, AllocError> {
    let alloc = rt.alloc();
    let mut shelf = RealShelf::new(alloc, rt);
    let mut out = MemSink::new(alloc, Vec::new(alloc));
    let mut notes = MemSink::new(alloc, Vec::new(alloc));
    let words = words_of(alloc, words)?;
    let status = run(
        alloc,
        &words,
        &mut shelf,
        &mut out,
        &mut notes,
        no_taps(alloc),
    );
    let Ok(wanted) = fs::read(rt, report) else {
        return Ok(None);
    };
    let end = ending(alloc, status, &notes)?;
    if out.bytes() == wanted.as_slice() {
        return Ok(Some(format!(in alloc; "the report / {end}")?));
    }
    let text = String::from_utf8_lossy(alloc, out.bytes())?;
    Ok(Some(format!(in alloc; "{text} / {end}")?))
}
