//! What is told of a run beside its report.
ghost use Rattle.std.specs.Prelude.{◌≡◌, ◌++◌, IfOk, OnOk, OnErr, IsTrue, ◌↔◌};
ghost use Rattle.tap_board.specs.Marks.{mark_of};
ghost use Rattle.tap_board.specs.Meanings.{Meaning, marked, has_stopped, tail_of};
ghost use Rattle.tap_board.specs.declared.tap.Go.TheVariants as go;

use wheel_types::{Memory, Report, Verdict};

/// Whether a tap wants to be told more.
#[derive(Clone, Copy, Debug, PartialEq, Eq)]
pub enum Go {
    /// It wants the next report too.
    On,
    /// It is to be dropped.
    Stop,
}

/// The mark of a report: 0 for lost, 1 for open, `2 + j` for at crank edge `j`. It takes no memory.
pub fn mark(report: &Report) -> u64
    ensures { result ≡ mark_of report.now.verdict }
{
    match report.verdict {
        Verdict::Lost => 0,
        Verdict::Open { .. } => 1,
        Verdict::At { j, .. } => 2 + u64::from(j),
    }
}

/// What is told the reports of a run one by one, and has a text of its own for the end.
pub trait Tap: Drop {
    /// The marks of the reports taken, in order; the text for the end and whether the tap stops, by a list of marks.
    ghost meaning: { Self → Meaning };

    /// Takes a report, whose mark is the last one then, and says whether to go on: `Stop` exactly where the tap stops at the marks
    /// that it then keeps. No report changes the text and the stop of a list of marks.
    ///
    /// # Errors
    ///
    /// `Memory`; the tap is as it was then.
    fn take(&mut self, report: &Report) -> Result<Go, Memory>
        ensures taken { OnOk result (meaning self.new ≡ marked (mark_of report.now.verdict) (meaning self.old)) }
        ensures stop { IfOk result (λ answer. (answer ≡ go.Stop) ↔ IsTrue (has_stopped (meaning self.new))) }
        ensures err { OnErr result (meaning self.new ≡ meaning self.old) };

    /// Puts the tap's text for the end behind `out`.
    ///
    /// # Errors
    ///
    /// `Memory`; `out` is as it was then.
    fn finish(&mut self, out: &mut Vec<u8>) -> Result<(), Memory>
        ensures ok { OnOk result (out.new.items ≡ out.old.items ++ tail_of (meaning self.old)) }
        ensures err { OnErr result (out.new.items ≡ out.old.items) };
}
