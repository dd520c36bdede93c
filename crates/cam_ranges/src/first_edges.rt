//! The first edge of a channel at an angle or after it.
ghost use Rattle.std.specs.Prelude.{◌≡◌, ℕ, ◌^◌, ◌<◌, ◌≤◌, ◌↔◌, ℤ, pos, negsuc, ◌+ℤ◌, ◌*ℤ◌, ◌≤ℤ◌, unsigned_abs};
ghost use Rattle.wheel_types.specs.Edges.{edge_count, slot_of, angle_of};
ghost use Rattle.wheel_types.specs.declared.parts.WheelParts.{WheelParts as Parts};
ghost use Rattle.edge_angles.specs.EdgeTables.{AreEdgesOf};
ghost use Rattle.cam_ranges.specs.Searches.{IsCountBefore};

use crate::angles::{slots, units};
use edge_angles::Edges;
use wheel_types::{Channel, Wheel};

/// How many edges of a channel a cycle has before a slot, by halving.
fn edges_before(edges: &Edges, channel: Channel, slot: u32) -> u32
    ensures count { (parts : Parts) → AreEdgesOf parts edges.now → IsCountBefore parts channel slot result }
    ensures few { result ≤ 4096 }
{
    let mut first = 0;
    let mut end = edges.cam_count(channel);
    while first < end {
        let middle = first + (end - first) / 2;
        if edges.cam_slot(channel, middle) < slot {
            first = middle + 1;
        } else {
            end = middle;
        }
    }
    first
}

/// An edge of a cycle, counted on through all cycles of so many edges.
fn unrolled(count: u32, cycle: i32, number: u32) -> i32
    requires count { count ≤ 4096 }
    requires number { number ≤ 4096 }
    requires cycle { unsigned_abs cycle ≤ 2 ^ 15 }
    ensures { result ≡ cycle *ℤ pos count +ℤ pos number }
{
    let turn = cycle * count as i32;
    turn + number as i32
}

/// The first edge of a channel at the start of a slot, or after it.
fn first_from_slot(wheel: &Wheel, edges: &Edges, channel: Channel, slot: i64) -> i32
    requires table { AreEdgesOf wheel.now.parts edges.now }
    requires present { 0 < edge_count wheel.now.parts channel }
    requires small { unsigned_abs slot ≤ 2 ^ 15 }
    ensures edge { (n : ℤ) → slot ≤ℤ slot_of wheel.now.parts channel n ↔ result ≤ℤ n }
    ensures small { unsigned_abs result ≤ 2 ^ 16 }
{
    let slots = i64::from(slots(wheel));
    let cycle = slot.div_euclid(slots) as i32;
    let within = slot.rem_euclid(slots) as u32;
    unrolled(
        edges.cam_count(channel),
        cycle,
        edges_before(edges, channel, within),
    )
}

/// The first slot, of so many units, that starts at an angle or after it.
fn slot_from(units: u32, angle: i64) -> i64
    requires least { 360_000 ≤ units }
    requires most { units ≤ 720_000 }
    requires low { negsuc 2_949_119_999 ≤ℤ angle }
    requires high { angle ≤ℤ pos 11_539_054_593 }
    ensures slot { (s : ℤ) → angle ≤ℤ (pos units *ℤ s) ↔ result ≤ℤ s }
    ensures small { unsigned_abs result ≤ 2 ^ 15 }
{
    let units = i64::from(units);
    (angle + units - 1).div_euclid(units)
}

/// The first edge of a channel at an angle or after it.
pub fn first_from(wheel: &Wheel, edges: &Edges, channel: Channel, angle: i64) -> i32
    requires table { AreEdgesOf wheel.now.parts edges.now }
    requires present { 0 < edge_count wheel.now.parts channel }
    requires low { negsuc 2_949_119_999 ≤ℤ angle }
    requires high { angle ≤ℤ pos 11_539_054_593 }
    ensures edge { (n : ℤ) → angle ≤ℤ angle_of wheel.now.parts channel n ↔ result ≤ℤ n }
    ensures small { unsigned_abs result ≤ 2 ^ 16 }
{
    let slot = slot_from(units(wheel), angle);
    first_from_slot(wheel, edges, channel, slot)
}
