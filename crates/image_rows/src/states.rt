//! The states of an image.

use crate::Told;
use image_format::{Kind, View};
use std::alloc::{AllocError, Global};
use std::fmt::Write;

/// The text of a kind.
fn text_of_kind(alloc: Global, kind: Kind) -> Result<String, AllocError> {
    match kind {
        Kind::Dead => String::from_str(alloc, "dead"),
        Kind::At { j } => format!(in alloc; "at {j}"),
        Kind::Open { e, f } => format!(in alloc; "open {e} {f}"),
    }
}

/// Adds the entries of a row that are not 0, each after its column.
fn push_entries(told: &mut String, row: &[u8]) -> Result<(), AllocError> {
    for (column, entry) in row.chunks(2).enumerate() {
        if let [low, high] = entry {
            let to = u16::from_le_bytes([*low, *high]);
            if to > 0 {
                write!(told, " {column}:{to}")?;
            }
        }
    }
    Ok(())
}

/// What is told of a state: its phase and kind, the words of its members with the last one first, and the entries of its row.
pub fn told_of_state(alloc: Global, view: &View<'_>, asked: &str) -> Told {
    let Ok(q) = asked.parse::<u32>() else {
        return Ok(None);
    };
    if q >= view.state_count() {
        return Ok(None);
    }
    let mut told = format!(in alloc; "phase {} ", view.phase(q))?;
    told.push_str(&text_of_kind(alloc, view.kind(q))?)?;
    told.push_str(", ")?;
    for word in 0..view.words() {
        write!(told, "{:016x}", view.member(q, view.words() - 1 - word))?;
    }
    told.push(',')?;
    push_entries(&mut told, view.row(q))?;
    Ok(Some(told))
}
