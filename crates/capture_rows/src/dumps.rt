//! Value change dumps, fed whole, in two pieces and byte by byte.

use crate::bytes::bytes_of;
use crate::pieces::{feed_bytes, instants_of, reader_of};
use crate::watched::Watched;
use capture_core::VcdFault;
use std::alloc::{AllocError, Global};
use vcd_reader::{FeedFault, VcdReader};

/// The text of an answer.
pub fn text_of(alloc: Global, end: Result<(), FeedFault>) -> Result<String, AllocError> {
    match end {
        Ok(()) => String::from_str(alloc, "Clean"),
        Err(FeedFault::Refused(fault)) => format!(in alloc; "{fault:?}"),
        Err(FeedFault::Memory) => Err(AllocError),
    }
}

/// Whether an answer of `feed` agrees with the end: it tells the same fault, or none where the end is clean or cut.
fn agrees(fed: Result<(), FeedFault>, end: Result<(), FeedFault>) -> bool {
    match end {
        Ok(()) | Err(FeedFault::Refused(VcdFault::Cut { .. })) => fed == Ok(()),
        Err(_) => fed == end,
    }
}

/// Ends a reader whose last answer is given, and tells its instants and how it ends, with `?` where the two do not agree.
fn told_at_end(
    alloc: Global,
    reader: &mut VcdReader,
    fed: Result<(), FeedFault>,
) -> Result<String, AllocError> {
    let end = reader.finish();
    let doubt = if agrees(fed, end) { "" } else { "?" };
    let instants = instants_of(alloc, reader)?;
    let end = text_of(alloc, end)?;
    format!(in alloc; "{instants}{end}{doubt}")
}

/// What is told of a dump in two pieces.
pub fn told_of_pieces(
    alloc: Global,
    watched: &Watched,
    first: &[u8],
    second: &[u8],
) -> Result<String, AllocError> {
    let mut reader = reader_of(alloc, watched)?;
    let _ = reader.feed(first);
    let fed = reader.feed(second);
    told_at_end(alloc, &mut reader, fed)
}

/// What is told of a dump of parts, of which the last is the second piece.
pub fn told_of_parts(
    alloc: Global,
    watched: &Watched,
    parts: &[String],
) -> Result<String, AllocError> {
    let (front, last) = parts.split_at(parts.len().saturating_sub(1));
    let first = bytes_of(alloc, front)?;
    let second = bytes_of(alloc, last)?;
    told_of_pieces(alloc, watched, &first, &second)
}

/// What is told of a dump that is fed byte by byte.
pub fn told_by_bytes(alloc: Global, watched: &Watched, dump: &[u8]) -> Result<String, AllocError> {
    let mut reader = reader_of(alloc, watched)?;
    let fed = feed_bytes(&mut reader, dump);
    told_at_end(alloc, &mut reader, fed)
}
