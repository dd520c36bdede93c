//! A tap that remembers the first fix.
ghost use Rattle.std.specs.Prelude.{◌≡◌, ◌<◌, ◌+◌, ◌^◌, [], position, IfSome};
ghost use Rattle.tap_board.specs.Marks.{is_at};
ghost use Rattle.tap_board.specs.Taps.{first_fix_meaning, first_text};

use crate::text::{Text, append, push_number};
use crate::{Go, Tap, mark};
use std::alloc::Global;
use wheel_types::{Memory, Report};

/// Says which report was the first that was at, and never stops.
#[derive(Drop)]
pub struct FirstFix {
    /// The marks of the reports taken, in order.
    marks: Vec<u64>,
}

impl FirstFix {
    /// One that has taken no report. It takes no memory.
    pub fn new(alloc: Global) -> FirstFix
        ensures { ⟦<FirstFix as Tap>⟧.meaning result ≡ first_fix_meaning [] }
    {
        FirstFix {
            marks: Vec::new(alloc),
        }
    }
}

/// The index of the first mark of an at, from 0.
fn first(marks: &[u64]) -> Option<usize>
    ensures first { result ≡ position is_at marks.now }
    ensures fits { IfSome result (λ index. index + 1 < 2 ^ 64) }
{
    marks.iter().position(|m| *m >= 2)
}

/// The line with the number of the first fix.
fn line(first: Option<usize>) -> Text
    requires { IfSome first (λ index. index + 1 < 2 ^ 64) }
    ensures { result.bytes ≡ first_text first }
{
    let mut line = Text::new();
    match first {
        Some(index) => {
            line.push_str("first at ");
            push_number(&mut line, index as u64 + 1);
            line.push_str("\n");
        }
        None => line.push_str("first none\n"),
    }
    line
}

impl Tap for FirstFix {
    ghost meaning = { λ tap. first_fix_meaning tap.marks.items };

    fn take(&mut self, report: &Report) -> Result<Go, Memory> {
        match self.marks.push(mark(report)) {
            Ok(()) => Ok(Go::On),
            Err(_) => Err(Memory),
        }
    }

    fn finish(&mut self, out: &mut Vec<u8>) -> Result<(), Memory> {
        append(out, &line(first(&self.marks)))
    }
}
