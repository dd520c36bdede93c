//! The words of commands, the ends of runs, and the lines of reports.
//!
//! A row is `command | WORDS`, `end | NUMBER` or `end | NUMBER | failing`, or `line | INDEX TIME SHAPE VERDICT`; the table says what
//! each tells.
#![tactic(auto)]

mod commands;
mod ends;
mod lines;

use commands::told_of_words;
use ends::told_of_end;
use lines::told_of_report;
use rows::{Tells, check};
use std::alloc::{AllocError, Global};
use std::io;

/// Tells of the texts around a run.
#[derive(Drop)]
struct Texts;

impl Tells for Texts {
    fn told(&self, alloc: Global, fields: &[String]) -> Result<Option<String>, AllocError> {
        let [kind, asked, rest @ ..] = fields else {
            return Ok(None);
        };
        match kind.as_str() {
            "command" => told_of_words(alloc, asked),
            "end" => told_of_end(alloc, asked, !rest.is_empty()),
            "line" => told_of_report(alloc, asked),
            _ => Ok(None),
        }
    }
}

fn main(rt: HostRuntime) -> io::Result<()> {
    check(&rt, &Texts)
}
