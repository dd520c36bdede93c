//! Valid wheels.
ghost use Rattle.std.specs.Prelude.{◌≡◌, ◌↔◌, ◌+◌, ◌*◌, ◌<◌, ◌≤◌, IsTrue, IfOk, IfErr, OnOk, OnErr, is_some};
ghost use Rattle.wheel_types.specs.Edges.{slot_count, edge_count, change, kept};
ghost use Rattle.wheel_types.specs.Faults.{BreaksFirst};
ghost use Rattle.wheel_types.specs.Wheels.{IsWheel};

use crate::{Channel, Keep, List, Memory, WheelFault, WheelParts};
use std::alloc::Global;

/// A wheel: parts within the limits, with at least one kept crank edge.
#[derive(Debug, Drop)]
pub struct Wheel {
    parts: WheelParts,
    /// The parts are those of a wheel.
    pub ghost valid: { IsWheel parts },
}

impl Wheel {
    ghost use Rattle.wheel_types.specs.Edges.{keep_of};

    /// The wheel of the parts. It takes no memory.
    ///
    /// # Errors
    /// The first rule that the parts break, in the order of `WheelFault`.
    pub fn build(parts: WheelParts) -> Result<Wheel, WheelFault>
        ensures ok { IfOk result (λ w. w.parts ≡ parts) }
        ensures err { OnErr result (¬ IsWheel parts) }
        ensures fault { IfErr result (λ f. BreaksFirst parts f) }
    {
        keeps_rules(&parts)?;
        Ok(Wheel { parts })
    }

    /// The same wheel once more.
    ///
    /// # Errors
    /// Want of memory.
    pub fn copied(&self, alloc: Global) -> Result<Wheel, Memory>
        ensures { IfOk result (λ copy. copy.parts ≡ self.now.parts) }
    {
        Ok(Wheel {
            parts: copied_parts(alloc, &self.parts)?,
        })
    }

    /// What the wheel is made of.
    pub fn parts(&self) -> &WheelParts
        ensures { result.now ≡ self.now.parts }
    {
        &self.parts
    }

    /// Which edges of a channel are kept.
    pub fn keep(&self, channel: Channel) -> Keep
        ensures { result ≡ keep_of self.now.parts channel }
    {
        match channel {
            Channel::Crank => self.parts.crank,
            Channel::Cam1 => self.parts.cam1,
            Channel::Cam2 => self.parts.cam2,
        }
    }
}

/// The same parts once more.
fn copied_parts(alloc: Global, parts: &WheelParts) -> Result<WheelParts, Memory>
    ensures { IfOk result (λ copy. copy ≡ parts.now) }
{
    Ok(WheelParts {
        degrees: parts.degrees,
        slots: List::from_slice(alloc, parts.slots.as_slice())?,
        crank: parts.crank,
        cam1: parts.cam1,
        cam2: parts.cam2,
        cam1_early: parts.cam1_early,
        cam1_late: parts.cam1_late,
        cam2_early: parts.cam2_early,
        cam2_late: parts.cam2_late,
        rpm_low: parts.rpm_low,
        rpm_high: parts.rpm_high,
        rn: parts.rn,
        rd: parts.rd,
    })
}

/// Whether the parts keep every rule of a wheel, or which they break first.
fn keeps_rules(parts: &WheelParts) -> Result<(), WheelFault>
    ensures ok { OnOk result (IsWheel parts.now) }
    ensures fault { IfErr result (λ f. BreaksFirst parts.now f) }
{
    if parts.degrees != 360 && parts.degrees != 720 {
        return Err(WheelFault::Degrees);
    }
    let slots = parts.slots.as_slice();
    if slots.len() < 2 || slots.len() > 4096 {
        return Err(WheelFault::SlotCount);
    }
    if let Some(at) = slots.iter().position(|value| *value > 7) {
        return Err(WheelFault::SlotValue { at: at as u64 });
    }
    if !fits_cycle(parts.cam1_early, parts.cam1_late, parts.degrees) {
        return Err(WheelFault::Phasing { cam: Channel::Cam1 });
    }
    if !fits_cycle(parts.cam2_early, parts.cam2_late, parts.degrees) {
        return Err(WheelFault::Phasing { cam: Channel::Cam2 });
    }
    if parts.rpm_low < 1 || parts.rpm_low > parts.rpm_high || parts.rpm_high > 30000 {
        return Err(WheelFault::Rpm);
    }
    if parts.rd < 1 || parts.rd > parts.rn || parts.rn > 65535 {
        return Err(WheelFault::Ratio);
    }
    if !has_crank_edge(parts) {
        return Err(WheelFault::NoCrankEdge);
    }
    Ok(())
}

/// Whether a phasing in millidegrees is together below one cycle of so many degrees.
fn fits_cycle(early: u32, late: u32, degrees: u32) -> bool
    ensures { IsTrue result ↔ (early + late < 1000 * degrees) }
{
    u64::from(early) + u64::from(late) < 1000 * u64::from(degrees)
}

/// Whether the crank has a kept edge.
fn has_crank_edge(parts: &WheelParts) -> bool
    requires { 1 ≤ slot_count parts.now }
    ensures { IsTrue result ↔ (1 ≤ edge_count parts.now Channel.Crank) }
{
    let slots = parts.slots.as_slice();
    let mut before = slots[slots.len() - 1];
    for value in slots {
        if is_kept_edge(parts.crank, before % 2, *value % 2) {
            return true;
        }
        before = *value;
    }
    false
}

/// Whether the edge from one level to another is kept.
fn is_kept_edge(keep: Keep, before: u8, level: u8) -> bool
    ensures { result ≡ is_some (kept keep (change before level)) }
{
    let rises = before == 0 && level > 0;
    let falls = before > 0 && level == 0;
    match keep {
        Keep::Rising => rises,
        Keep::Falling => falls,
        Keep::Both => rises || falls,
    }
}
