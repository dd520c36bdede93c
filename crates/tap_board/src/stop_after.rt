//! A tap that stops.
ghost use Rattle.std.specs.Prelude.{◌≡◌, []};
ghost use Rattle.tap_board.specs.Taps.{stop_after_meaning};

use crate::{Go, Tap, mark};
use std::alloc::Global;
use wheel_types::{Memory, Report};

/// Stops once it has taken so many reports, and has no text.
#[derive(Drop)]
pub struct StopAfter {
    /// It stops at every list of at least so many marks.
    limit: u64,
    /// The marks of the reports taken, in order.
    marks: Vec<u64>,
}

impl StopAfter {
    /// One that stops at every list of at least so many marks, and has taken no report. It takes no memory.
    pub fn new(alloc: Global, limit: u64) -> StopAfter
        ensures { ⟦<StopAfter as Tap>⟧.meaning result ≡ stop_after_meaning limit [] }
    {
        StopAfter {
            limit,
            marks: Vec::new(alloc),
        }
    }
}

impl Tap for StopAfter {
    ghost meaning = { λ tap. stop_after_meaning tap.limit tap.marks.items };

    fn take(&mut self, report: &Report) -> Result<Go, Memory> {
        if self.marks.push(mark(report)).is_err() {
            return Err(Memory);
        }
        if self.marks.len() as u64 >= self.limit {
            Ok(Go::Stop)
        } else {
            Ok(Go::On)
        }
    }

    fn finish(&mut self, _out: &mut Vec<u8>) -> Result<(), Memory> {
        Ok(())
    }
}
