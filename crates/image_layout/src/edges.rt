//! The kept edges of the wheel that an image holds.
ghost use Rattle.std.specs.Prelude.{◌≡◌, ◌≤◌, ◌<◌, ◌/◌, ◌%◌, ◌^◌, is_some, length, slice_index};
ghost use Rattle.image_layout.specs.Fields.{keep_for, wheel_parts_of};
ghost use Rattle.image_layout.specs.Keeps.{AreLaid};
ghost use Rattle.wheel_types.specs.Edges.{kept, change, bit_of, keep_of, edge_count, edge_slots};
ghost use Rattle.wheel_types.specs.declared.parts.WheelParts.{WheelParts};

use crate::sections::Sections;
use crate::words::word_at;
use wheel_types::{Channel, Keep};

/// The kept edges that two bits name.
fn keep_for(word: u32) -> Keep
    ensures { result ≡ keep_for word }
{
    if word == 1 {
        Keep::Rising
    } else if word == 2 {
        Keep::Falling
    } else {
        Keep::Both
    }
}

/// Which edges of a channel the header says are kept.
pub fn keep(bytes: &[u8], channel: Channel) -> Keep
    requires { 72 ≤ length bytes.now }
    ensures { result ≡ keep_of (wheel_parts_of bytes.now) channel }
{
    let word = word_at(bytes, 36);
    match channel {
        Channel::Crank => keep_for(word / 1 % 4),
        Channel::Cam1 => keep_for(word / 4 % 4),
        Channel::Cam2 => keep_for(word / 16 % 4),
    }
}

/// An edge from a level to another is kept.
fn is_kept(keep: Keep, before: u8, level: u8) -> bool
    requires before { before < 2 }
    requires level { level < 2 }
    ensures { result ≡ is_some (kept keep (change before level)) }
{
    if before == 0 {
        level == 1 && keep != Keep::Falling
    } else {
        level == 0 && keep != Keep::Rising
    }
}

/// The level of a channel in a slot of this value.
fn level(channel: Channel, value: u8) -> u8
    ensures level { result ≡ value / 2 ^ bit_of channel % 2 }
    ensures bit { result < 2 }
{
    match channel {
        Channel::Crank => value / 1 % 2,
        Channel::Cam1 => value / 2 % 2,
        Channel::Cam2 => value / 4 % 2,
    }
}

/// How many edges of a channel are kept.
fn kept_edges(slots: &[u8], channel: Channel, keep: Keep) -> u32
    requires some { 0 < length slots.now }
    requires few { length slots.now ≤ 4096 }
    ensures { (w : WheelParts) → w.slots ≡ slots.now → keep_of w channel ≡ keep → result ≡ edge_count w channel }
{
    let mut before = level(channel, slots[slots.len() - 1]);
    let mut count = 0;
    for slot in slots {
        let level = level(channel, *slot);
        if is_kept(keep, before, level) {
            count += 1;
        }
        before = level;
    }
    count
}

/// The slot of a kept edge of a channel.
fn kept_slot(slots: &[u8], channel: Channel, keep: Keep, j: u32) -> u32
    requires some { 0 < length slots.now }
    requires few { length slots.now ≤ 4096 }
    ensures { (w : WheelParts) → w.slots ≡ slots.now → keep_of w channel ≡ keep → j < edge_count w channel → result ≡ slice_index (edge_slots w channel) j }
{
    let mut before = level(channel, slots[slots.len() - 1]);
    let mut count = 0;
    for k in 0..slots.len() {
        let level = level(channel, slots[k]);
        if is_kept(keep, before, level) {
            if count == j {
                return k as u32;
            }
            count += 1;
        }
        before = level;
    }
    0
}

/// The bytes of the slots.
#[inline]
pub fn slots<'a>(bytes: &'a [u8], sections: &Sections) -> &'a [u8]
    requires { AreLaid sections.now bytes.now }
    ensures slots { result.now ≡ (wheel_parts_of bytes.now).slots }
    ensures some { 0 < length result.now }
    ensures few { length result.now ≤ 4096 }
{
    &bytes[72..72 + sections.slots as usize]
}

/// How many edges of a channel the image's wheel keeps.
pub fn edges(bytes: &[u8], sections: &Sections, channel: Channel) -> u32
    requires { AreLaid sections.now bytes.now }
    ensures { result ≡ edge_count (wheel_parts_of bytes.now) channel }
{
    kept_edges(slots(bytes, sections), channel, keep(bytes, channel))
}

/// The slot at whose start edge `j` of a channel stands, among those that the wheel keeps.
pub fn edge_slot(bytes: &[u8], sections: &Sections, channel: Channel, j: u32) -> u32
    requires laid { AreLaid sections.now bytes.now }
    requires there { j < edge_count (wheel_parts_of bytes.now) channel }
    ensures { result ≡ slice_index (edge_slots (wheel_parts_of bytes.now) channel) j }
{
    kept_slot(slots(bytes, sections), channel, keep(bytes, channel), j)
}
