//! Images of which one entry of a row leads to another state.

use crate::Told;
use crate::audits::difference_of;
use crate::bytes::write_at;
use crate::wheels::summed;
use image_audit::AuditFault;
use image_format::View;
use std::alloc::{AllocError, Global};
use std::fmt::Write;

/// What is told of the changes that keep the layout.
#[derive(Drop)]
struct Changes {
    /// How many they are.
    count: u64,
    /// How many are told to mismatch at the entry that is changed.
    there: u64,
    /// A line of each: the entry, the state that it leads to now, and the first difference.
    lines: String,
}

/// Whether the first difference is a mismatch at an entry, counted over all rows.
fn is_at(view: &View<'_>, entry: u64, difference: Option<AuditFault>) -> bool {
    match difference {
        Some(AuditFault::Mismatch { state, letter, .. }) => {
            let row = u64::from(state).wrapping_mul(u64::from(view.row_width()));
            row.wrapping_add(u64::from(letter)) == entry
        }
        _ => false,
    }
}

impl Changes {
    /// Takes an image of which an entry leads to another state now.
    fn take(&mut self, alloc: Global, entry: u64, to: u32, bytes: &[u8]) -> Result<(), AllocError> {
        let Ok(view) = View::verify(bytes) else {
            return Ok(());
        };
        let difference = difference_of(alloc, &view)?;
        self.count = self.count.wrapping_add(1);
        if is_at(&view, entry, difference) {
            self.there = self.there.wrapping_add(1);
        }
        writeln!(self.lines, "{entry} {to} {difference:?}")?;
        Ok(())
    }

    /// Takes the image of which the entry that begins at a byte leads to each other state in turn.
    fn take_each(
        &mut self,
        alloc: Global,
        entry: u64,
        at: usize,
        old: u32,
        states: u32,
        bytes: &mut [u8],
    ) -> Result<(), AllocError> {
        for to in 0..states {
            if to != old {
                let [low, high, ..] = to.to_le_bytes();
                write_at(bytes, at, &[low, high]);
                self.take(alloc, entry, to, bytes)?;
            }
        }
        let [low, high, ..] = old.to_le_bytes();
        write_at(bytes, at, &[low, high]);
        Ok(())
    }
}

/// The entries of rows that begin at a byte.
fn entries_of(alloc: Global, bytes: &[u8], from: usize) -> Result<Vec<u32>, AllocError> {
    let mut entries = Vec::new(alloc);
    for entry in bytes.get(from..).unwrap_or(&[]).chunks(2) {
        if let [low, high] = entry {
            entries.push(u32::from(u16::from_le_bytes([*low, *high])))?;
        }
    }
    Ok(entries)
}

/// What the image is told to be with each entry of its rows in turn leading to each other state, as far as the layout is kept.
fn changes_of(
    alloc: Global,
    from: usize,
    states: u32,
    bytes: &mut [u8],
) -> Result<Changes, AllocError> {
    let mut changes = Changes {
        count: 0,
        there: 0,
        lines: String::new(alloc),
    };
    let entries = entries_of(alloc, bytes, from)?;
    let mut at = from;
    let mut entry = 0u64;
    for old in entries.iter() {
        changes.take_each(alloc, entry, at, *old, states, bytes)?;
        at = at.wrapping_add(2);
        entry = entry.wrapping_add(1);
    }
    Ok(changes)
}

/// What an image whose rows begin at a byte is told to be with each entry of them in turn leading to each other state.
pub fn told_of_entries(alloc: Global, from: &str, bytes: Vec<u8>) -> Told {
    let mut bytes = bytes;
    let Ok(from) = from.parse::<usize>() else {
        return Ok(None);
    };
    let states = match View::verify(bytes.as_slice()) {
        Ok(view) => view.state_count(),
        Err(_) => return Ok(None),
    };
    let changes = changes_of(alloc, from, states, bytes.as_mut_slice())?;
    let lines = summed(alloc, changes.lines.as_bytes())?;
    let (count, there) = (changes.count, changes.there);
    Ok(Some(format!(in alloc; "{count} changes, {there} mismatches there; lines of {lines}")?))
}
