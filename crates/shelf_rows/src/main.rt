//! Shelves and sinks through their bounds, with calls that fail.
//!
//! The first field of a row is `copies`, `fails`, `sink`, `stream` or `system`; the table says what each tells.
#![tactic(auto)]

mod files;
mod streams;

use files::{copies, copies_where, over_the_system};
use rows::{Tells, check};
use shelf_io::RealShelf;
use std::alloc::{AllocError, Global};
use std::io;
use streams::{put_in_memory, put_in_stream};

/// Tells what calls of shelves and sinks give and leave.
#[derive(Drop)]
struct Calls<'a> {
    rt: &'a HostRuntime,
}

/// The numbers in a text.
fn numbers(alloc: Global, text: &str) -> Result<Vec<u64>, AllocError> {
    let mut numbers = Vec::new(alloc);
    for word in text.split(' ') {
        if let Ok(number) = word.parse::<u64>() {
            numbers.push(number)?;
        }
    }
    Ok(numbers)
}

impl Tells for Calls<'_> {
    fn told(&self, alloc: Global, fields: &[String]) -> Result<Option<String>, AllocError> {
        let [kind, rest @ ..] = fields else {
            return Ok(None);
        };
        let asked = match rest {
            [asked] => asked.as_str(),
            _ => "",
        };
        let told = match kind.as_str() {
            "copies" => copies(alloc, &numbers(alloc, asked)?)?,
            "fails" => copies_where(alloc, numbers(alloc, asked)?)?,
            "sink" => put_in_memory(alloc, numbers(alloc, asked)?)?,
            "stream" => put_in_stream(
                alloc,
                asked.starts_with("terminal"),
                &numbers(alloc, asked)?,
            )?,
            "system" => over_the_system(alloc, &mut RealShelf::new(alloc, self.rt))?,
            _ => return Ok(None),
        };
        Ok(Some(told))
    }
}

fn main(rt: HostRuntime) -> io::Result<()> {
    check(&rt, &Calls { rt: &rt })
}
