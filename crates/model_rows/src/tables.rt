//! Tables of C sources, and the line of a wheel file that lists slots.

use crate::Told;
use crate::texts::bytes_of;
use c_tables::{TableFault, read_table, slots_line};
use std::alloc::{AllocError, Global};
use std::fmt::Write;

/// The slots of a table, one after the other.
fn listed(alloc: Global, slots: &[u8]) -> Result<String, AllocError> {
    let mut text = String::new(alloc);
    for slot in slots {
        if !text.is_empty() {
            text.push_str(", ")?;
        }
        write!(text, "{slot}")?;
    }
    Ok(text)
}

/// What is told of a source: the slots of its table of this name, or its fault.
pub fn told_of_table(alloc: Global, name: &str, source: &str) -> Told {
    match read_table(alloc, &bytes_of(alloc, source)?, name) {
        Ok(slots) => Ok(Some(listed(alloc, &slots)?)),
        Err(TableFault::Memory) => Err(AllocError),
        Err(fault) => Ok(Some(format!(in alloc; "{fault:?}")?)),
    }
}

/// How the table of this name is refused in a source that was cut.
fn cut_fault(alloc: Global, name: &str, front: &[u8]) -> Result<String, AllocError> {
    match read_table(alloc, front, name) {
        Ok(_) => String::from_str(alloc, "read"),
        Err(TableFault::Memory) => Err(AllocError),
        Err(TableFault::BadText { at }) if at == front.len() as u64 => {
            String::from_str(alloc, "BadText at the end")
        }
        Err(fault) => format!(in alloc; "{fault:?}"),
    }
}

/// What was told of the fronts so far.
#[derive(Drop)]
struct Alike {
    text: String,
    last: String,
    count: u64,
}

impl Alike {
    /// The text with the fronts that were told as the last one.
    fn close(&mut self) -> Result<(), AllocError> {
        if self.count > 0 {
            let gap = if self.text.is_empty() { "" } else { ", " };
            write!(self.text, "{gap}{} {}", self.count, self.last)?;
        }
        Ok(())
    }

    fn take(&mut self, told: String) -> Result<(), AllocError> {
        if told.as_str() != self.last.as_str() {
            self.close()?;
            self.last = told;
            self.count = 0;
        }
        self.count = self.count.wrapping_add(1);
        Ok(())
    }
}

/// How the table of this name is refused in all fronts of a source, the shorter first: how many in turn are refused alike.
pub fn told_of_cuts(alloc: Global, name: &str, source: &str) -> Told {
    let bytes = bytes_of(alloc, source)?;
    let mut alike = Alike {
        text: String::new(alloc),
        last: String::new(alloc),
        count: 0,
    };
    for length in 0..bytes.len() {
        alike.take(cut_fault(alloc, name, &bytes[..length])?)?;
    }
    alike.close()?;
    Ok(Some(alike.text))
}

/// Numbers with a blank between two of them.
fn numbers_of(alloc: Global, text: &str) -> Result<Option<Vec<u8>>, AllocError> {
    let mut numbers = Vec::new(alloc);
    for number in text.split_whitespace() {
        let Ok(number) = number.parse::<u8>() else {
            return Ok(None);
        };
        numbers.push(number)?;
    }
    Ok(Some(numbers))
}

/// The line of a wheel file that lists these slots.
pub fn told_of_line(alloc: Global, numbers: &str) -> Told {
    let Some(slots) = numbers_of(alloc, numbers)? else {
        return Ok(None);
    };
    let line = slots_line(alloc, &slots)?;
    Ok(Some(String::from_utf8_lossy(alloc, &line)?))
}
