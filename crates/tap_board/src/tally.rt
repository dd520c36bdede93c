//! A tap that counts.
ghost use Rattle.std.specs.Prelude.{◌≡◌, [], count_by};
ghost use Rattle.tap_board.specs.Marks.{is_at, is_open, is_lost};
ghost use Rattle.tap_board.specs.Taps.{tally_meaning, tally_text};

use crate::text::{Text, append, push_number};
use crate::{Go, Tap, mark};
use std::alloc::Global;
use wheel_types::{Memory, Report};

/// Counts the reports that were at, open and lost, and never stops.
#[derive(Drop)]
pub struct Tally {
    /// The marks of the reports taken, in order.
    marks: Vec<u64>,
}

impl Tally {
    /// A tally of no report. It takes no memory.
    pub fn new(alloc: Global) -> Tally
        ensures { ⟦<Tally as Tap>⟧.meaning result ≡ tally_meaning [] }
    {
        Tally {
            marks: Vec::new(alloc),
        }
    }
}

/// How many marks are those of an at, of an open, of a lost.
fn counts(marks: &[u64]) -> (u64, u64, u64)
    ensures at { result.0 ≡ count_by is_at marks.now }
    ensures opened { result.1 ≡ count_by is_open marks.now }
    ensures lost { result.2 ≡ count_by is_lost marks.now }
{
    let at = marks.iter().filter(|m| **m >= 2).count() as u64;
    let opened = marks.iter().filter(|m| **m == 1).count() as u64;
    let lost = marks.iter().filter(|m| **m == 0).count() as u64;
    (at, opened, lost)
}

/// The line with the three counts.
fn line(at: u64, opened: u64, lost: u64) -> Text
    ensures { result.bytes ≡ tally_text at opened lost }
{
    let mut line = Text::new();
    line.push_str("tally at ");
    push_number(&mut line, at);
    line.push_str(" open ");
    push_number(&mut line, opened);
    line.push_str(" lost ");
    push_number(&mut line, lost);
    line.push_str("\n");
    line
}

impl Tap for Tally {
    ghost meaning = { λ tap. tally_meaning tap.marks.items };

    fn take(&mut self, report: &Report) -> Result<Go, Memory> {
        match self.marks.push(mark(report)) {
            Ok(()) => Ok(Go::On),
            Err(_) => Err(Memory),
        }
    }

    fn finish(&mut self, out: &mut Vec<u8>) -> Result<(), Memory> {
        let (at, opened, lost) = counts(&self.marks);
        append(out, &line(at, opened, lost))
    }
}
