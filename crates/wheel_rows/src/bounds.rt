//! Times and gaps on the limits.
ghost use Rattle.std.specs.Prelude.{◌≤◌, IsTrue};
ghost use Rattle.wheel_types.specs.Edges.{slot_count};

use motion_bounds::{greatest_time, least_time, ratio_ok, speed_ok};
use wheel_types::Wheel;

/// Whether so many slots are some of the wheel's.
fn are_slots(wheel: &Wheel, slots: u32) -> bool
    ensures some { IsTrue result → 1 ≤ slots }
    ensures of_wheel { IsTrue result → slots ≤ slot_count wheel.now.parts }
{
    1 <= slots && slots as usize <= wheel.parts().slots.as_slice().len()
}

/// The least and the greatest time of so many slots.
pub fn times(wheel: &Wheel, numbers: &[u64]) -> Option<(u64, u64)> {
    let [count] = numbers else {
        return None;
    };
    let count = u32::try_from(*count).ok()?;
    if !are_slots(wheel, count) {
        return None;
    }
    Some((least_time(wheel, count), greatest_time(wheel, count)))
}

/// Whether so many slots may pass in a time.
pub fn speed(wheel: &Wheel, numbers: &[u64]) -> Option<bool> {
    let [count, time] = numbers else {
        return None;
    };
    let count = u32::try_from(*count).ok()?;
    if !are_slots(wheel, count) || *time == 0 {
        return None;
    }
    Some(speed_ok(wheel, count, *time))
}

/// Whether a gap of slots in a time may follow another one.
pub fn ratio(wheel: &Wheel, numbers: &[u64]) -> Option<bool> {
    let [s0, t0, s1, t1] = numbers else {
        return None;
    };
    let (s0, s1) = (u32::try_from(*s0).ok()?, u32::try_from(*s1).ok()?);
    if !are_slots(wheel, s0) || !are_slots(wheel, s1) || *t0 == 0 || *t1 == 0 {
        return None;
    }
    Some(ratio_ok(wheel, s0, *t0, s1, *t1))
}
