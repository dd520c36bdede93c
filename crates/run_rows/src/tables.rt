//! Runs over the image of a file beside the program, spoiled where a row asks for it.

use crate::memory::{bytes_of, ending, fails_of, file_of, no_taps, words_of};
use shelf_io::{MemShelf, MemSink};
use std::alloc::{AllocError, Global};
use std::fs;
use wheelsync::run;

/// Makes a change: `956=3` sets a byte, `first=100` leaves the first bytes alone, and `more=0` adds a byte.
fn spoil(bytes: &mut Vec<u8>, change: &str) -> Result<(), AllocError> {
    let Some((place, value)) = change.split_once('=') else {
        return Ok(());
    };
    if place == "first" {
        bytes.truncate(value.parse::<usize>().unwrap_or(0));
        return Ok(());
    }
    let byte = value.parse::<u8>().unwrap_or(0);
    if place == "more" {
        bytes.push(byte)?;
        return Ok(());
    }
    let at = place.parse::<usize>().unwrap_or(usize::MAX);
    if at < bytes.len() {
        bytes[at] = byte;
    }
    Ok(())
}

/// A shelf with the files `image` and `capture`.
fn shelf_of(
    alloc: Global,
    image: &[u8],
    capture: &[u8],
    fails: Vec<u64>,
) -> Result<MemShelf, AllocError> {
    let mut all = Vec::new(alloc);
    all.push(file_of(alloc, "image", image)?)?;
    all.push(file_of(alloc, "capture", capture)?)?;
    Ok(MemShelf::new(alloc, all, 1 << 16, fails))
}

/// What is told of words over an image with changes and a capture, where a call fails: what out got, and how it ended.
pub fn told_of_table(
    rt: &HostRuntime,
    words: &str,
    failing: &str,
    files: [&str; 3],
) -> Result<Option<String>, AllocError> {
    let alloc = rt.alloc();
    let [image, changes, capture] = files;
    let Ok(mut image) = fs::read(rt, image) else {
        return Ok(None);
    };
    for change in changes.split(' ') {
        spoil(&mut image, change)?;
    }
    let capture = bytes_of(alloc, capture)?;
    let mut shelf = shelf_of(alloc, &image, &capture, fails_of(alloc, failing, "shelf")?)?;
    let mut out = MemSink::new(alloc, fails_of(alloc, failing, "out")?);
    let mut notes = MemSink::new(alloc, fails_of(alloc, failing, "notes")?);
    let words = words_of(alloc, words)?;
    let status = run(
        alloc,
        &words,
        &mut shelf,
        &mut out,
        &mut notes,
        no_taps(alloc),
    );
    let text = String::from_utf8_lossy(alloc, out.bytes())?;
    let end = ending(alloc, status, &notes)?;
    Ok(Some(format!(in alloc; "{text} / {end}")?))
}
