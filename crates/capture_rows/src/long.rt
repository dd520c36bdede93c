//! Long captures: how many instants they have, which is the last, and how they end.

use crate::dumps::text_of;
use crate::edges::push_instant;
use crate::pieces::{count_taken, feed_pieces, reader_of};
use crate::sheets::capture_of;
use crate::watched::Watched;
use std::alloc::{AllocError, Global};
use wheel_types::Instant;

/// The number of instants, the last of them, and the end.
fn told_of(
    alloc: Global,
    count: usize,
    last: Option<Instant>,
    end: &str,
) -> Result<String, AllocError> {
    let mut told = format!(in alloc; "{count} instants; ")?;
    if let Some(last) = last {
        push_instant(&mut told, last)?;
    }
    told.push_str(end)?;
    Ok(told)
}

/// What is told of a long file in CSV.
pub fn told_of_long_sheet(
    alloc: Global,
    watched: &Watched,
    file: &[u8],
) -> Result<String, AllocError> {
    let capture = capture_of(alloc, watched, file)?;
    let instants = capture.instants.as_slice();
    let end = format!(in alloc; "{:?}", capture.end)?;
    told_of(alloc, instants.len(), instants.last().copied(), &end)
}

/// What is told of a long dump that is fed as a file is read, 65,536 bytes at a time.
pub fn told_of_long_dump(
    alloc: Global,
    watched: &Watched,
    dump: &[u8],
) -> Result<String, AllocError> {
    let mut reader = reader_of(alloc, watched)?;
    let _ = feed_pieces(&mut reader, dump);
    let end = text_of(alloc, reader.finish())?;
    let (count, last) = count_taken(&mut reader, dump.len());
    told_of(alloc, count, last, &end)
}
