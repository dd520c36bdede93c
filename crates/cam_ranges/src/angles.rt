//! Slots and angles of edges, counted on through all cycles. One millidegree is as many units as the wheel has slots, so
//! that every angle is whole.
ghost use Rattle.std.specs.Prelude.{◌≡◌, ◌*◌, ◌^◌, ◌<◌, ◌≤◌, pos, ◌+ℤ◌, ◌-ℤ◌, ◌*ℤ◌, ◌≤ℤ◌, unsigned_abs};
ghost use Rattle.wheel_types.specs.Edges.{slot_count, edge_count, slot_of, angle_of, first_angle as earliest, last_angle as latest, early_of, late_of};
ghost use Rattle.edge_angles.specs.EdgeTables.{AreEdgesOf};

use edge_angles::Edges;
use wheel_types::{Channel, Wheel};

/// Slots of a cycle.
pub fn slots(wheel: &Wheel) -> u32
    ensures value { result ≡ slot_count wheel.now.parts }
    ensures some { 2 ≤ result }
    ensures few { result ≤ 4096 }
{
    wheel.parts().slots.as_slice().len() as u32
}

/// Units of a slot.
pub fn units(wheel: &Wheel) -> u32
    ensures value { result ≡ 1000 * wheel.now.parts.degrees }
    ensures some { 360_000 ≤ result }
    ensures few { result ≤ 720_000 }
{
    1000 * wheel.parts().degrees
}

/// Units by which an edge of a channel may fall before its angle.
pub fn early(wheel: &Wheel, channel: Channel) -> i64
    ensures value { result ≡ pos (early_of wheel.now.parts channel * slot_count wheel.now.parts) }
    ensures few { result ≤ℤ pos 2_949_120_000 }
{
    let parts = wheel.parts();
    let early = match channel {
        Channel::Crank => 0,
        Channel::Cam1 => parts.cam1_early,
        Channel::Cam2 => parts.cam2_early,
    };
    i64::from(early) * i64::from(slots(wheel))
}

/// Units by which an edge of a channel may fall after its angle.
pub fn late(wheel: &Wheel, channel: Channel) -> i64
    ensures value { result ≡ pos (late_of wheel.now.parts channel * slot_count wheel.now.parts) }
    ensures few { result ≤ℤ pos 2_949_120_000 }
{
    let parts = wheel.parts();
    let late = match channel {
        Channel::Crank => 0,
        Channel::Cam1 => parts.cam1_late,
        Channel::Cam2 => parts.cam2_late,
    };
    i64::from(late) * i64::from(slots(wheel))
}

/// A slot of a cycle, counted on through all cycles of so many slots.
fn unrolled(slots: u32, cycle: i32, slot: u32) -> i64
    requires slots { slots ≤ 4096 }
    requires slot { slot < slots }
    requires cycle { unsigned_abs cycle ≤ 2 ^ 20 }
    ensures value { result ≡ cycle *ℤ pos slots +ℤ pos slot }
    ensures small { unsigned_abs result ≤ 2 ^ 33 }
{
    let turn = i64::from(cycle) * i64::from(slots);
    turn + i64::from(slot)
}

/// The slot at whose start an edge is.
fn slot(wheel: &Wheel, edges: &Edges, channel: Channel, index: i32) -> i64
    requires table { AreEdgesOf wheel.now.parts edges.now }
    requires present { 0 < edge_count wheel.now.parts channel }
    requires small { unsigned_abs index ≤ 2 ^ 20 }
    ensures value { result ≡ slot_of wheel.now.parts channel index }
    ensures small { unsigned_abs result ≤ 2 ^ 33 }
{
    let count = edges.cam_count(channel) as i32;
    let cycle = index.div_euclid(count);
    let number = index.rem_euclid(count) as u32;
    unrolled(slots(wheel), cycle, edges.cam_slot(channel, number))
}

/// So many units for each slot.
fn scaled(units: u32, slot: i64) -> i64
    requires units { units ≤ 720_000 }
    requires slot { unsigned_abs slot ≤ 2 ^ 33 }
    ensures value { result ≡ pos units *ℤ slot }
    ensures small { unsigned_abs result ≤ 2 ^ 53 }
{
    i64::from(units) * slot
}

/// The angle of an edge.
pub fn angle(wheel: &Wheel, edges: &Edges, channel: Channel, index: i32) -> i64
    requires table { AreEdgesOf wheel.now.parts edges.now }
    requires present { 0 < edge_count wheel.now.parts channel }
    requires small { unsigned_abs index ≤ 2 ^ 20 }
    ensures value { result ≡ angle_of wheel.now.parts channel index }
    ensures small { unsigned_abs result ≤ 2 ^ 53 }
{
    scaled(units(wheel), slot(wheel, edges, channel, index))
}

/// The first angle at which an edge may fall.
pub fn first_angle(wheel: &Wheel, edges: &Edges, channel: Channel, index: i32) -> i64
    requires table { AreEdgesOf wheel.now.parts edges.now }
    requires present { 0 < edge_count wheel.now.parts channel }
    requires small { unsigned_abs index ≤ 2 ^ 20 }
    ensures { result ≡ earliest wheel.now.parts channel index }
{
    angle(wheel, edges, channel, index) - early(wheel, channel)
}

/// The last angle at which an edge may fall.
pub fn last_angle(wheel: &Wheel, edges: &Edges, channel: Channel, index: i32) -> i64
    requires table { AreEdgesOf wheel.now.parts edges.now }
    requires present { 0 < edge_count wheel.now.parts channel }
    requires small { unsigned_abs index ≤ 2 ^ 20 }
    ensures { result ≡ latest wheel.now.parts channel index }
{
    angle(wheel, edges, channel, index) + late(wheel, channel)
}
