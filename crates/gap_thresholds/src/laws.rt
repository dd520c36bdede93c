//! A law of cuts. The function does nothing; its contract says the law.
ghost use Rattle.gap_thresholds.specs.Classes.{wheel_of, AreCutsOf};

use crate::cuts::Cuts;

/// Cuts are those of their wheel, whoever hands them: so the classes mean what `time_keeps` and `ratio_keeps` say.
pub fn cuts_are_their_wheels(cuts: &Cuts)
    ensures { ∥ AreCutsOf (wheel_of cuts.now) cuts.now ∥₁ }
{
    let _cuts = cuts;
}
