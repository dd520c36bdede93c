//! Stimuli.
ghost use Rattle.std.specs.Prelude.{◌≡◌, ◌≤◌, ◌^◌, IfOk, IfErr, OnOk, length};
ghost use Rattle.wheel_types.specs.Verdicts.{AreWithin};
ghost use Rattle.edge_angles.specs.EdgeTables.{AreEdgesOf, edges_in};
ghost use Rattle.stimulus.specs.Causes.{IsCause, Says, HasFewEdges};
ghost use Rattle.stimulus.specs.Drawn.{IsStimulus};
ghost use Rattle.stimulus_files.specs.FilesOf.{keep_if as kept_if, watch_of, IsCsvText, IsVcdText};
ghost use Rattle.stimulus_files.specs.Written.{AreSmall};
ghost use Rattle.stimulus.specs.Gaps.{HasTimes};
ghost use Rattle.stimulus.specs.Made.{IsSomeStimulus};
ghost use Rattle.stimulus.specs.Plans.{IsPlan};

use crate::crank::refuse_stuck;
use crate::fault::StimFault;
use crate::maker::Maker;
use crate::plan::Plan;
use capture_core::Watch;
use edge_angles::{Edges, find_edges};
use std::alloc::Global;
use wheel_types::{Channel, Instant, Keep, Memory, Wheel};

/// The capture of an engine that keeps the limits of its wheel, drawn from a seed.
#[derive(Debug, Drop)]
pub struct Stimulus {
    watch: Watch,
    instants: Vec<Instant>,
    /// A wheel, a seed and a number of gaps have this stimulus.
    ghost drawn: { ∥ IsSomeStimulus watch instants.items ∥₁ },
    /// Its times, and the changes that its files have, are within what a file can say.
    ghost within: { AreWithin (10 ^ 24) instants.items },
    ghost small: { ∥ AreSmall watch instants.items ∥₁ },
}

impl Stimulus {
    /// The instants, in the order of their times. It takes no memory.
    pub fn instants(&self) -> &[Instant]
        ensures { result.now ≡ self.now.instants.items }
    {
        self.instants.as_slice()
    }

    /// The channels that have edges, with the polarities that are kept of them. It takes no memory.
    pub fn watch(&self) -> Watch
        ensures { result ≡ self.now.watch }
    {
        self.watch
    }

    /// The value change dump of the instants, under the default names. What reads it back has exactly these instants and a clean end.
    ///
    /// # Errors
    /// Want of memory.
    pub fn write_vcd(&self, alloc: Global) -> Result<Vec<u8>, Memory>
        ensures { IfOk result (λ text. IsVcdText self.now.watch self.now.instants.items text.items) }
    {
        stimulus_files::write_vcd(alloc, self.watch, self.instants.as_slice())
    }

    /// The file of comma-separated values of the instants, under the default names. What reads it back has exactly these instants and a
    /// clean end.
    ///
    /// # Errors
    /// Want of memory.
    pub fn write_csv(&self, alloc: Global) -> Result<Vec<u8>, Memory>
        ensures { IfOk result (λ text. IsCsvText self.now.watch self.now.instants.items text.items) }
    {
        stimulus_files::write_csv(alloc, self.watch, self.instants.as_slice())
    }
}

/// The polarities that are kept of a cam, if it has edges.
fn keep_if(edges: &Edges, cam: Channel, keep: Keep) -> Option<Keep>
    ensures { result ≡ kept_if (length (edges_in edges.now cam)) keep }
{
    if edges.cam_count(cam) == 0 {
        None
    } else {
        Some(keep)
    }
}

/// The channels of a wheel that have edges.
fn watch(wheel: &Wheel, edges: &Edges) -> Watch
    requires { AreEdgesOf wheel.now.parts edges.now }
    ensures { result ≡ watch_of wheel.now.parts }
{
    let parts = wheel.parts();
    Watch {
        crank: parts.crank,
        cam1: keep_if(edges, Channel::Cam1, parts.cam1),
        cam2: keep_if(edges, Channel::Cam2, parts.cam2),
    }
}

/// The instants of a stimulus.
///
/// # Errors
/// `Stuck`, `TooManyEdges` or want of memory, whichever is met first.
fn all_instants(alloc: Global, wheel: &Wheel, plan: &Plan) -> Result<Vec<Instant>, StimFault>
    requires plan { IsPlan wheel.now.parts plan.now }
    requires some { 1 ≤ plan.now.gaps }
    ensures stimulus { IfOk result (λ instants. IsStimulus wheel.now.parts plan.now.seed plan.now.gaps instants.items) }
    ensures timed { OnOk result (HasTimes wheel.now.parts plan.now.seed plan.now.gaps) }
    ensures few { OnOk result (HasFewEdges wheel.now.parts plan.now.seed plan.now.gaps) }
    ensures stops { IfErr result (λ fault. Says wheel.now.parts plan.now.seed plan.now.gaps fault) }
{
    let mut maker = Maker::begin(alloc, wheel, plan)?;
    for _ in 1..plan.gaps {
        maker.pass_cams(wheel, plan)?;
        maker.pass_crank(wheel, plan)?;
    }
    maker.pass_cams(wheel, plan)?;
    maker.finish(wheel, plan)
}

/// The stimulus of a wheel, a seed and so many gaps between crank edges, from 1 to 1,000,000. For one seed it is the same on every
/// machine.
///
/// The first crank edge is at 10^12 fs. It is drawn from those of a cycle, the time of each gap between the limits of speed and of its
/// ratio, and the angle of each cam edge from those of its range that are past the edge before it. The cams' edges before the last
/// crank edge are taken, and angles pass evenly between two crank edges.
///
/// # Errors
/// The first of these that is so: `Stuck` where the limits leave a gap no time, `TooManyEdges` where there are more than 4,000,000
/// edges, want of memory.
pub fn make(alloc: Global, wheel: &Wheel, seed: u64, gaps: u32) -> Result<Stimulus, StimFault>
    requires some { 1 ≤ gaps }
    requires few_gaps { gaps ≤ 1_000_000 }
    ensures stimulus { IfOk result (λ made. IsStimulus wheel.now.parts seed gaps made.instants.items) }
    ensures watch { IfOk result (λ made. made.watch ≡ watch_of wheel.now.parts) }
    ensures timed { OnOk result (HasTimes wheel.now.parts seed gaps) }
    ensures few { OnOk result (HasFewEdges wheel.now.parts seed gaps) }
    ensures cause { IfErr result (λ fault. IsCause wheel.now.parts seed gaps fault) }
{
    let plan = Plan {
        edges: find_edges(alloc, wheel)?,
        seed,
        gaps,
    };
    match all_instants(alloc, wheel, &plan) {
        Ok(instants) => Ok(Stimulus {
            watch: watch(wheel, &plan.edges),
            instants,
        }),
        Err(StimFault::TooManyEdges) => {
            refuse_stuck(wheel, &plan)?;
            Err(StimFault::TooManyEdges)
        }
        Err(fault) => Err(fault),
    }
}
