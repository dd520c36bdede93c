//! The stimulus of a wheel, or the cause for which there is none.
ghost use Rattle.std.specs.Prelude.{◌≡◌, ◌≤◌, IfOk, IfErr, OnOk};
ghost use Rattle.run_ends.specs.Works.{StopsJudge};
ghost use Rattle.stimulus.specs.Drawn.{IsStimulus};
ghost use Rattle.stimulus_files.specs.FilesOf.{watch_of};
ghost use Rattle.stimulus_commands.specs.Stimuli.{HasStimulus, StimGives};

use run_ends::{Cause, Limit, Refusal};
use std::alloc::Global;
use stimulus::{StimFault, Stimulus, make};
use wheel_types::Wheel;

/// The stimulus of a wheel, a seed and so many gaps.
///
/// # Errors
/// In this order: `Refusal::Stuck` where the limits leave a gap no time; `Limit::Edges` past 4,000,000 edges; `Memory`.
pub fn stimulus_of(alloc: Global, wheel: &Wheel, seed: u64, gaps: u32) -> Result<Stimulus, Cause>
    requires some { 1 ≤ gaps }
    requires few { gaps ≤ 1_000_000 }
    ensures stimulus { IfOk result (λ made. IsStimulus wheel.now.parts seed gaps made.instants.items) }
    ensures watch { IfOk result (λ made. made.watch ≡ watch_of wheel.now.parts) }
    ensures passes { OnOk result (HasStimulus wheel.now.parts seed gaps) }
    ensures kinds { IfErr result (StopsJudge (StimGives wheel.now.parts seed gaps)) }
{
    match make(alloc, wheel, seed, gaps) {
        Ok(made) => Ok(made),
        Err(StimFault::Stuck { gap, low, high }) => Err(Cause::Refused(Refusal::Stuck {
            gap,
            low,
            high,
        })),
        Err(StimFault::TooManyEdges) => Err(Cause::Limit(Limit::Edges)),
        Err(StimFault::Memory) => Err(Cause::Memory),
    }
}
