//! A tap that wants memory.
ghost use Rattle.std.specs.Prelude.{[], false, codes};

use std::alloc::Global;
use tap_board::{Go, Tap, mark};
use wheel_types::{Memory, Report};

/// Wants memory at the report of this number, from 1, and at each later one; one of number 0 wants it at the end.
#[derive(Drop)]
pub struct Wanting {
    number: u64,
    /// The marks of the reports taken, in order.
    marks: Vec<u64>,
}

impl Wanting {
    /// One that has taken no report.
    pub fn new(alloc: Global, number: u64) -> Wanting {
        Wanting {
            number,
            marks: Vec::new(alloc),
        }
    }
}

impl Tap for Wanting {
    ghost meaning = { λ tap. record { marks = tap.marks.items; tail = λ all. []; stops = λ all. false } };

    fn take(&mut self, report: &Report) -> Result<Go, Memory> {
        if self.number > 0 && self.marks.len() as u64 + 1 >= self.number {
            return Err(Memory);
        }
        match self.marks.push(mark(report)) {
            Ok(()) => Ok(Go::On),
            Err(_) => Err(Memory),
        }
    }

    fn finish(&mut self, _out: &mut Vec<u8>) -> Result<(), Memory> {
        if self.number == 0 {
            return Err(Memory);
        }
        Ok(())
    }
}
