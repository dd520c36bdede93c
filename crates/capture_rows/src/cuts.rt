//! Dumps that are cut everywhere, and dumps that end early.

use crate::dumps::{told_by_bytes, told_of_pieces};
use crate::watched::Watched;
use std::alloc::{AllocError, Global};

/// What is told of a dump in one piece and at every cut in two, with the number of cuts, or the first cut at which it is another thing.
pub fn told_of_cuts(alloc: Global, watched: &Watched, dump: &[u8]) -> Result<String, AllocError> {
    let whole = told_of_pieces(alloc, watched, dump, b"")?;
    for at in 1..dump.len() {
        let (first, second) = dump.split_at(at);
        let told = told_of_pieces(alloc, watched, first, second)?;
        if told != whole {
            return format!(in alloc; "cut at {at}: {told}");
        }
    }
    format!(in alloc; "{} cuts: {whole}", dump.len().saturating_sub(1))
}

/// The lengths at which a dump may end before its own end, or the first at which it is neither clean nor cut.
pub fn told_of_fronts(alloc: Global, watched: &Watched, dump: &[u8]) -> Result<String, AllocError> {
    let mut clean = String::from_str(alloc, "clean at")?;
    for length in 0..dump.len() {
        let told = told_by_bytes(alloc, watched, &dump[..length])?;
        if told.ends_with("Clean") {
            write!(clean, " {length}")?;
        } else if !told.contains("Cut") {
            return format!(in alloc; "{length} bytes: {told}");
        }
    }
    Ok(clean)
}
