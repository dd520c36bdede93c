//! The cuts of a wheel, gap by gap.
ghost use Rattle.std.specs.Prelude.{◌≡◌, ◌≤◌, ◌+◌, ◌*◌, ◌⊎◌, ◌↔◌, All, OnOk, IfOk, length};
ghost use Rattle.std.specs.List.{Contains};
ghost use Rattle.wheel_types.specs.Edges.{slot_count};
ghost use Rattle.edge_angles.specs.EdgeTables.{AreEdgesOf};
ghost use Rattle.gap_thresholds.specs.declared.cut.Cut.{Cut as Fraction};
ghost use Rattle.gap_thresholds.specs.Fractions.{IsSmall};
ghost use Rattle.gap_thresholds.specs.Gaps.{IsCutOfGap, IsCutOfGaps, IsTimeCut, IsRatioCut};

use crate::ascending::Ascending;
use crate::cut::Cut;
use edge_angles::Edges;
use motion_bounds::{greatest_time, least_time};
use std::alloc::{AllocError, Global};
use wheel_types::Wheel;

/// Adds the cuts that the limits on speed make of a gap.
fn add_times(times: &mut Ascending, wheel: &Wheel, slots: u32) -> Result<(), AllocError>
    requires some_slots { 1 ≤ slots }
    requires slots_of_wheel { slots ≤ slot_count wheel.now.parts }
    ensures ok { OnOk result ((c : Fraction) → Contains times.new.cuts.items c ↔ (Contains times.old.cuts.items c ⊎ IsCutOfGap wheel.now.parts slots c)) }
    ensures length { length times.new.cuts.items ≤ length times.old.cuts.items + 2 }
{
    times.insert(Cut::whole(least_time(wheel, slots)))?;
    times.insert(Cut::whole(greatest_time(wheel, slots) + 1))
}

/// Adds the cuts that the limit on the ratio makes of two gaps, the second after the first.
fn add_ratios(ratios: &mut Ascending, wheel: &Wheel, s0: u32, s1: u32) -> Result<(), AllocError>
    requires some_first { 1 ≤ s0 }
    requires first_of_wheel { s0 ≤ slot_count wheel.now.parts }
    requires some_second { 1 ≤ s1 }
    requires second_of_wheel { s1 ≤ slot_count wheel.now.parts }
    ensures ok { OnOk result ((c : Fraction) → Contains ratios.new.cuts.items c ↔ (Contains ratios.old.cuts.items c ⊎ IsCutOfGaps wheel.now.parts s0 s1 c)) }
    ensures small { OnOk result (All IsSmall ratios.old.cuts.items → All IsSmall ratios.new.cuts.items) }
    ensures length { length ratios.new.cuts.items ≤ length ratios.old.cuts.items + 2 }
{
    let parts = wheel.parts();
    let (s0, s1) = (u64::from(s0), u64::from(s1));
    let (rn, rd) = (u64::from(parts.rn), u64::from(parts.rd));
    ratios.insert(Cut::lowest(s1 * rd, s0 * rn))?;
    ratios.insert(Cut::lowest(s1 * rn, s0 * rd))
}

/// The time cuts of a wheel. It asks the wheel's edges.
///
/// # Errors
/// Want of memory.
pub fn time_cuts(alloc: Global, wheel: &Wheel, edges: &Edges) -> Result<Ascending, AllocError>
    requires { AreEdgesOf wheel.now.parts edges.now }
    ensures cuts { IfOk result (λ times. (c : Fraction) → Contains times.cuts.items c ↔ IsTimeCut wheel.now.parts c) }
    ensures few { IfOk result (λ times. length times.cuts.items ≤ 8192) }
{
    let mut times = Ascending::new(alloc);
    for j in 0..edges.crank_count() {
        add_times(&mut times, wheel, edges.crank_gap(j))?;
    }
    Ok(times)
}

/// The ratio cuts of a wheel. It asks the wheel's edges.
///
/// # Errors
/// Want of memory.
pub fn ratio_cuts(alloc: Global, wheel: &Wheel, edges: &Edges) -> Result<Ascending, AllocError>
    requires { AreEdgesOf wheel.now.parts edges.now }
    ensures cuts { IfOk result (λ ratios. (c : Fraction) → Contains ratios.cuts.items c ↔ IsRatioCut wheel.now.parts c) }
    ensures small { IfOk result (λ ratios. All IsSmall ratios.cuts.items) }
    ensures few { IfOk result (λ ratios. length ratios.cuts.items ≤ 8192) }
{
    let mut ratios = Ascending::new(alloc);
    let count = edges.crank_count();
    for j in 0..count {
        let next = if j + 1 < count { j + 1 } else { 0 };
        add_ratios(
            &mut ratios,
            wheel,
            edges.crank_gap(j),
            edges.crank_gap(next),
        )?;
    }
    Ok(ratios)
}
