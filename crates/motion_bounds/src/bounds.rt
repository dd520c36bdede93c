//! The tests of speed and ratio, and the times that they allow.
ghost use Rattle.std.specs.Prelude.{◌≡◌, ◌≤◌, ◌<◌, ◌*◌, ◌^◌, ◌↔◌, IsTrue};
ghost use Rattle.wheel_types.specs.Edges.{slot_count};
ghost use Rattle.wheel_types.specs.Speeds.{KeepsSpeed, KeepsRatio};
ghost use Rattle.motion_bounds.specs.Times.{least_of, greatest_of};

use wheel_types::Wheel;

/// Femtoseconds of a second.
const SECOND: u128 = 1_000_000_000_000_000;

/// The angle of so many slots. The unit is such that at one revolution a minute as many units pass in a femtosecond as
/// six times the wheel's slots.
fn way(wheel: &Wheel, slots: u32) -> u128
    requires { slots ≤ slot_count wheel.now.parts }
    ensures way { result ≡ slots * wheel.now.parts.degrees * 10 ^ 15 }
    ensures bound { result ≤ slot_count wheel.now.parts * 720 * 10 ^ 15 }
{
    u128::from(slots) * u128::from(wheel.parts().degrees) * SECOND
}

/// The angle, in the same unit, that passes in a femtosecond at so many revolutions a minute.
fn pace(wheel: &Wheel, rpm: u32) -> u128
    requires { rpm ≤ 30000 }
    ensures pace { result ≡ rpm * 6 * slot_count wheel.now.parts }
    ensures bound { result < 2 ^ 30 }
{
    u128::from(rpm) * 6 * wheel.parts().slots.as_slice().len() as u128
}

/// Whether `slots` slots may pass in `time` femtoseconds. It asks from one slot to all of the wheel's, and at least a
/// femtosecond.
pub fn speed_ok(wheel: &Wheel, slots: u32, time: u64) -> bool
    requires some_slots { 1 ≤ slots }
    requires slots_of_wheel { slots ≤ slot_count wheel.now.parts }
    requires some_time { 1 ≤ time }
    ensures { IsTrue result ↔ KeepsSpeed wheel.now.parts slots time }
{
    keeps_speed(wheel, slots, u128::from(time))
}

/// Whether a gap of `s0` slots in `t0` femtoseconds and then one of `s1` slots in `t1` keep the wheel's ratio. It asks
/// from one slot to all of the wheel's, and at least a femtosecond for each.
pub fn ratio_ok(wheel: &Wheel, s0: u32, t0: u64, s1: u32, t1: u64) -> bool
    requires some_first { 1 ≤ s0 }
    requires first_of_wheel { s0 ≤ slot_count wheel.now.parts }
    requires first_time { 1 ≤ t0 }
    requires some_second { 1 ≤ s1 }
    requires second_of_wheel { s1 ≤ slot_count wheel.now.parts }
    requires second_time { 1 ≤ t1 }
    ensures { IsTrue result ↔ KeepsRatio wheel.now.parts s0 t0 s1 t1 }
{
    keeps_ratio(wheel, s0, u128::from(t0), s1, u128::from(t1))
}

/// The least time in femtoseconds in which so many slots may pass: that at the wheel's greatest speed, rounded up. It
/// asks from one slot to all of the wheel's.
pub fn least_time(wheel: &Wheel, slots: u32) -> u64
    requires some_slots { 1 ≤ slots }
    requires slots_of_wheel { slots ≤ slot_count wheel.now.parts }
    ensures { result ≡ least_of wheel.now.parts slots }
{
    way(wheel, slots).div_ceil(pace(wheel, wheel.parts().rpm_high)) as u64
}

/// The greatest time in femtoseconds in which so many slots may pass: that at the wheel's least speed, rounded down. It
/// asks from one slot to all of the wheel's.
pub fn greatest_time(wheel: &Wheel, slots: u32) -> u64
    requires some_slots { 1 ≤ slots }
    requires slots_of_wheel { slots ≤ slot_count wheel.now.parts }
    ensures { result ≡ greatest_of wheel.now.parts slots }
{
    (way(wheel, slots) / pace(wheel, wheel.parts().rpm_low)) as u64
}

/// `speed_ok` for every time between two instants, which may be none.
pub fn keeps_speed(wheel: &Wheel, slots: u32, time: u128) -> bool
    requires slots { slots ≤ slot_count wheel.now.parts }
    requires some_age { time ≤ 2 * 10 ^ 24 }
    ensures { IsTrue result ↔ KeepsSpeed wheel.now.parts slots time }
{
    let parts = wheel.parts();
    let way = way(wheel, slots);
    let slowest = pace(wheel, parts.rpm_low) * time;
    let fastest = pace(wheel, parts.rpm_high) * time;
    1 <= time && slowest <= way && way <= fastest
}

/// `ratio_ok` for all times between instants.
pub fn keeps_ratio(wheel: &Wheel, s0: u32, t0: u128, s1: u32, t1: u128) -> bool
    requires first_slots { s0 ≤ slot_count wheel.now.parts }
    requires first_age { t0 ≤ 2 * 10 ^ 24 }
    requires second_slots { s1 ≤ slot_count wheel.now.parts }
    requires second_age { t1 ≤ 2 * 10 ^ 24 }
    ensures { IsTrue result ↔ KeepsRatio wheel.now.parts s0 t0 s1 t1 }
{
    let parts = wheel.parts();
    let first = u128::from(s0) * t1;
    let second = u128::from(s1) * t0;
    let (rn, rd) = (u128::from(parts.rn), u128::from(parts.rd));
    first * rd <= second * rn && second * rd <= first * rn
}
