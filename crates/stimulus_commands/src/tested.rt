//! The command `self`.
ghost use Rattle.std.specs.Prelude.{◌≡◌, ◌≤◌, ◌^◌, ℕ, [], None, IfErr, OnOk};
ghost use Rattle.shelf_traits.specs.Shelf.{View};
ghost use Rattle.wheel_types.specs.declared.parts.WheelParts.{WheelParts};
ghost use Rattle.wheel_types.specs.Verdicts.{AreWithin, IsRising};
ghost use Rattle.cam_ranges.specs.Places.{HasTooMany};
ghost use Rattle.plain_motion.specs.Sets.{last_of};
ghost use Rattle.run_ends.specs.Serving.{Served, stream};
ghost use Rattle.run_ends.specs.Works.{StopsJudge, Writes};
ghost use Rattle.run_files.specs.Models.{IsFreshSet};
ghost use Rattle.stimulus.specs.Drawn.{IsStimulus};
ghost use Rattle.table_commands.specs.States.{FamilyGives, HasFewStates};
ghost use Rattle.stimulus_commands.specs.SelfTest.{IsSelfTest, IsSelfTested};

use crate::counts::{count_verdicts, counts_line};
use crate::stimuli::stimulus_of;
use plain_motion::{PlaceFault, PlainSet};
use position_nfa::Nfa;
use run_ends::{Cause, Done, put};
use run_files::{Model, load_model};
use shelf_io::{Shelf, Sink};
use std::alloc::Global;
use table_commands::count_states;
use wheel_types::{Instant, Wheel};

/// Tests that a wheel, which has no more places than a set of them takes, has no more states than a table takes.
///
/// # Errors
/// `Limit::States` with the limit that holds, where its family has more states than that; `Memory`.
fn test_states(alloc: Global, wheel: &Wheel) -> Result<(), Cause>
    requires few { ¬ HasTooMany wheel.now.parts }
    ensures passes { OnOk result (HasFewStates wheel.now.parts) }
    ensures kinds { IfErr result (StopsJudge (FamilyGives wheel.now.parts)) }
{
    let nfa = match Nfa::build(alloc, wheel) {
        Ok(nfa) => nfa,
        Err(PlaceFault::Memory) => return Err(Cause::Memory),
        Err(PlaceFault::TooMany) => unreachable!(),
    };
    let _states = count_states(alloc, &nfa)?;
    Ok(())
}

/// Writes the counts of instants that are stepped through a fresh set. It touches no shelf.
fn put_counts<O: Sink>(
    alloc: Global,
    set: &mut PlainSet,
    instants: &[Instant],
    out: &mut O,
) -> Result<Done, Cause>
    requires fresh { last_of set.old ≡ None }
    requires rising { IsRising instants.now }
    requires sizes { AreWithin (10 ^ 24) instants.now }
    ensures { (v : View) (w : WheelParts) (seed gaps : ℕ) → IsFreshSet w set.old → IsStimulus w seed gaps instants.now
        → Served (Writes (IsSelfTested w seed gaps)) None v v
        (stream (O.faults out.old) (O.taken out.old) (O.steady out.old)) (stream (O.faults out.new) (O.taken out.new) (O.steady out.new)) [] result }
{
    let Ok(counts) = count_verdicts(set, instants) else {
        return Err(Cause::Memory);
    };
    let Ok(line) = counts_line(alloc, counts) else {
        return Err(Cause::Memory);
    };
    put(out, line.as_str().as_bytes())?;
    Ok(Done::Whole)
}

/// Steps a stimulus of a file's wheel through the set of the wheel's places: so many gaps, from 1 to 1,000,000, drawn from a seed. On
/// out comes how many instants it has, how many of them are at a position, open and lost, and the number, from 1, of the first that is
/// at one, or 0: `instants N at A open B lost C first F`.
///
/// # Errors
/// In this order: those of `load_model`; `Limit::States` with the limit that holds, where the wheel's family has more states than that;
/// `Refusal::Stuck` where the limits leave a gap no time; `Limit::Edges` past 4,000,000 edges; `WriteFault`. `Memory` at any of them.
pub fn self_test<S: Shelf, O: Sink>(
    alloc: Global,
    wheel: &str,
    seed: u64,
    gaps: u32,
    shelf: &mut S,
    out: &mut O,
) -> Result<Done, Cause>
    requires some { 1 ≤ gaps }
    requires few { gaps ≤ 1_000_000 }
    ensures { Served (IsSelfTest (S.view shelf.old) wheel.now seed gaps) None (S.view shelf.old) (S.view shelf.new)
        (stream (O.faults out.old) (O.taken out.old) (O.steady out.old)) (stream (O.faults out.new) (O.taken out.new) (O.steady out.new)) [] result }
{
    let Model {
        wheel,
        edges: _edges,
        mut set,
    } = load_model(alloc, shelf, wheel)?;
    test_states(alloc, &wheel)?;
    let made = stimulus_of(alloc, &wheel, seed, gaps)?;
    put_counts(alloc, &mut set, made.instants(), out)
}
