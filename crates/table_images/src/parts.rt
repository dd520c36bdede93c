//! The parts of an image.
ghost use Rattle.std.specs.Prelude.{◌≡◌, ℕ, ◌<◌, ◌^◌, IfOk, map, flat_map, slice_index};
ghost use Rattle.gap_thresholds.specs.declared.cut.Cut.{Cut as Fraction};
ghost use Rattle.gap_thresholds.specs.Classes.{times_of, ratios_of};
ghost use Rattle.position_nfa.specs.declared.pair.Pair.{Pair as State};
ghost use Rattle.position_nfa.specs.Views.{alphabet};
ghost use Rattle.subset_build.specs.Views.{table_states};

use gap_thresholds::Cuts;
use position_nfa::Nfa;
use std::alloc::{AllocError, Global};
use subset_build::Table;
use wheel_types::{List, Place, Wheel, WheelParts};

/// A copy of a wheel's parts.
pub fn wheel_parts(alloc: Global, wheel: &Wheel) -> Result<WheelParts, AllocError>
    ensures { IfOk result (λ parts. parts ≡ wheel.now.parts) }
{
    let parts = wheel.parts();
    Ok(WheelParts {
        degrees: parts.degrees,
        slots: List::from_slice(alloc, parts.slots.as_slice())?,
        crank: parts.crank,
        cam1: parts.cam1,
        cam2: parts.cam2,
        cam1_early: parts.cam1_early,
        cam1_late: parts.cam1_late,
        cam2_early: parts.cam2_early,
        cam2_late: parts.cam2_late,
        rpm_low: parts.rpm_low,
        rpm_high: parts.rpm_high,
        rn: parts.rn,
        rd: parts.rd,
    })
}

/// The places of an automaton.
pub fn places(alloc: Global, nfa: &Nfa) -> Result<Vec<Place>, AllocError>
    ensures { IfOk result (λ places. places.items ≡ (alphabet nfa.now).places) }
{
    let mut places = Vec::new(alloc);
    for i in 0..nfa.place_count() {
        places.push(nfa.place(i))?;
    }
    Ok(places)
}

/// The time cuts, in femtoseconds.
pub fn time_cuts(alloc: Global, cuts: &Cuts) -> Result<Vec<u64>, AllocError>
    ensures tops { IfOk result (λ tops. tops.items ≡ map (λ (c : Fraction). c.top) (times_of cuts.now)) }
    ensures fits { IfOk result (λ tops. (k : ℕ) → slice_index tops.items k < 2 ^ 64) }
{
    let mut tops = Vec::new(alloc);
    for i in 0..cuts.time_count() {
        tops.push(cuts.time_cut(i))?;
    }
    Ok(tops)
}

/// The ratio cuts, as top and bottom.
pub fn ratio_cuts(alloc: Global, cuts: &Cuts) -> Result<Vec<(u32, u32)>, AllocError>
    ensures { IfOk result (λ pairs. pairs.items ≡ map (λ (c : Fraction). (c.top, c.bottom)) (ratios_of cuts.now)) }
{
    let mut pairs = Vec::new(alloc);
    for i in 0..cuts.ratio_count() {
        pairs.push(cuts.ratio_cut(i))?;
    }
    Ok(pairs)
}

/// The phases of a table's states.
pub fn phases(alloc: Global, table: &Table) -> Result<Vec<u8>, AllocError>
    ensures { IfOk result (λ phases. phases.items ≡ map (λ (p : State). p.phase) (table_states table.now)) }
{
    let mut phases = Vec::new(alloc);
    for q in 0..table.count() {
        phases.push(table.state(q).phase)?;
    }
    Ok(phases)
}

/// The words of the sets of a table's states, state after state.
pub fn members(alloc: Global, table: &Table) -> Result<Vec<u64>, AllocError>
    ensures { IfOk result (λ words. words.items ≡ flat_map (λ (p : State). p.set) (table_states table.now)) }
{
    let mut words = Vec::new(alloc);
    for q in 0..table.count() {
        words.extend_from_slice(table.state(q).set.as_slice())?;
    }
    Ok(words)
}
