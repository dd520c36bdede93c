//! The slots of a wheel that is told by its teeth and by where its cams are high.
ghost use Rattle.std.specs.Prelude.{◌≡◌, ◌<◌, ◌≤◌, IfOk, slice_index};
ghost use Rattle.wheel_pattern.specs.Patterns.{count_of, levels_of, slot_of, slots_of, IsWithin};
ghost use Rattle.wheel_pattern.specs.ToothPattern.{slots_of_teeth, turn_levels, cam_level};

use std::alloc::{AllocError, Global};

/// What a file in the short form tells of its slots.
#[derive(Clone, Copy)]
pub struct Pattern {
    /// Degrees of a cycle.
    pub degrees: u32,
    /// How many teeth a turn has, missing ones with them.
    pub teeth: u32,
    /// How many of them, the last ones, are missing.
    pub missing: u32,
    /// The first cam's first high slot, and how many slots it is high from there on.
    pub high1: (u32, u32),
    /// The same of the second cam.
    pub high2: (u32, u32),
}

/// How many slots so many teeth make, at most 8,192.
pub fn slots_of_teeth(degrees: u32, teeth: u32) -> u32
    requires { teeth ≤ 2048 }
    ensures value { result ≡ slots_of_teeth degrees teeth }
    ensures bound { result ≤ 8192 }
{
    if degrees == 720 { 4 * teeth } else { 2 * teeth }
}

/// The crank's level in a slot of one turn.
fn turn_level(teeth: u32, missing: u32, slot: u32) -> u8
    requires { (teeth ≤ 2048) × (missing < teeth) }
    ensures value { result ≡ slice_index (turn_levels teeth missing) slot }
    ensures bit { result ≤ 1 }
{
    if slot % 2 == 0 && slot < 2 * (teeth - missing) {
        1
    } else {
        0
    }
}

/// The crank's level in a slot of the cycle.
fn crank_level(pattern: Pattern, slot: u32) -> u8
    requires within { IsWithin pattern }
    requires slot { slot < count_of pattern }
    ensures value { result ≡ slice_index (levels_of pattern) slot }
    ensures bit { result ≤ 1 }
{
    let turn = 2 * pattern.teeth;
    let in_turn = if slot < turn { slot } else { slot - turn };
    turn_level(pattern.teeth, pattern.missing, in_turn)
}

/// A cam's level in a slot of so many, where it is high from slot `high.0` on in `high.1` slots.
fn cam_level(slots: u32, high: (u32, u32), slot: u32) -> u8
    requires { (slots ≤ 8192) × (high.0 ≤ slots) × (slot < slots) }
    ensures value { result ≡ cam_level slots high slot }
    ensures bit { result ≤ 1 }
{
    let (first, count) = high;
    let past_first = (slot + (slots - first)) % slots;
    if past_first < count { 1 } else { 0 }
}

/// A slot of a pattern: the crank's level in bit 0, the first cam's in bit 1, the second cam's in bit 2.
fn slot_at(pattern: Pattern, slot: u32) -> u8
    requires within { IsWithin pattern }
    requires slot { slot < count_of pattern }
    ensures { result ≡ slot_of pattern slot }
{
    let slots = slots_of_teeth(pattern.degrees, pattern.teeth);
    let crank = crank_level(pattern, slot);
    let cam1 = cam_level(slots, pattern.high1, slot);
    let cam2 = cam_level(slots, pattern.high2, slot);
    crank + 2 * cam1 + 4 * cam2
}

/// The slots of a pattern.
pub fn pattern_slots(alloc: Global, pattern: Pattern) -> Result<Vec<u8>, AllocError>
    requires { IsWithin pattern }
    ensures { IfOk result (λ slots. slots.items ≡ slots_of pattern) }
{
    let count = slots_of_teeth(pattern.degrees, pattern.teeth);
    let mut slots = Vec::with_capacity(alloc, count as usize)?;
    for slot in 0..count {
        slots.push(slot_at(pattern, slot))?;
    }
    Ok(slots)
}
