//! The times of gaps between crank edges.
ghost use Rattle.std.specs.Prelude.{◌≡◌, ◌≤◌, ◌<◌, ◌*◌, ◌/◌, ◌^◌};
ghost use Rattle.std.specs.Int.{div_ceil};
ghost use Rattle.wheel_types.specs.Edges.{slot_count};
ghost use Rattle.stimulus.specs.Gaps.{least_after, greatest_after};
ghost use Rattle.stimulus.specs.GapsOf.{gap_of, IsGapOf, IsGapIf};

use motion_bounds::{greatest_time, least_time};
use wheel_types::Wheel;

/// A gap that has passed.
#[derive(Clone, Copy, Debug, PartialEq, Eq)]
pub struct Gap {
    /// Its slots.
    pub slots: u32,
    /// Its femtoseconds.
    pub time: u64,
}

/// The least femtoseconds of so many slots after a gap, by the limit on the ratio alone, rounded up.
fn least_by_ratio(wheel: &Wheel, before: Gap, slots: u32) -> u64
    requires gap { IsGapOf wheel.now.parts before }
    requires slots_of_wheel { slots ≤ slot_count wheel.now.parts }
    ensures { result ≡ div_ceil (slots * before.time * wheel.now.parts.rd) (before.slots * wheel.now.parts.rn) }
{
    let parts = wheel.parts();
    let way = u128::from(slots) * u128::from(before.time) * u128::from(parts.rd);
    let rate = u128::from(before.slots) * u128::from(parts.rn);
    way.div_ceil(rate) as u64
}

/// The greatest femtoseconds of so many slots after a gap, by the limit on the ratio alone, rounded down.
fn greatest_by_ratio(wheel: &Wheel, before: Gap, slots: u32) -> u128
    requires gap { IsGapOf wheel.now.parts before }
    requires slots_of_wheel { slots ≤ slot_count wheel.now.parts }
    ensures { result ≡ slots * before.time * wheel.now.parts.rn / (before.slots * wheel.now.parts.rd) }
{
    let parts = wheel.parts();
    let way = u128::from(slots) * u128::from(before.time) * u128::from(parts.rn);
    let rate = u128::from(before.slots) * u128::from(parts.rd);
    way / rate
}

/// The least femtoseconds of so many slots, after a gap or none, by both limits.
pub fn least_after_gap(wheel: &Wheel, before: Option<Gap>, slots: u32) -> u64
    requires gap { IsGapIf wheel.now.parts before }
    requires some_slots { 1 ≤ slots }
    requires slots_of_wheel { slots ≤ slot_count wheel.now.parts }
    ensures { result ≡ least_after wheel.now.parts (gap_of before) slots }
{
    let least = least_time(wheel, slots);
    match before {
        None => least,
        Some(gap) => least.max(least_by_ratio(wheel, gap, slots)),
    }
}

/// The greatest femtoseconds of so many slots, after a gap or none, by both limits.
pub fn greatest_after_gap(wheel: &Wheel, before: Option<Gap>, slots: u32) -> u64
    requires gap { IsGapIf wheel.now.parts before }
    requires some_slots { 1 ≤ slots }
    requires slots_of_wheel { slots ≤ slot_count wheel.now.parts }
    ensures { result ≡ greatest_after wheel.now.parts (gap_of before) slots }
{
    let greatest = greatest_time(wheel, slots);
    match before {
        None => greatest,
        Some(gap) => u128::from(greatest).min(greatest_by_ratio(wheel, gap, slots)) as u64,
    }
}
