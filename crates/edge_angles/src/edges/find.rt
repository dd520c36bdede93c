//! How the kept edges of a wheel are found.
ghost use Rattle.std.specs.Prelude.{◌≡◌, ◌<◌, ◌≤◌, IfOk, length, All};
ghost use Rattle.wheel_types.specs.Edges.{slot_count, edge_at, level_of, change, kept};
ghost use Rattle.edge_angles.specs.EdgeTables.{AreEdgesOf, edges_of, some_if};

use super::{Edge, Edges};
use std::alloc::Global;
use wheel_types::{Channel, Keep, List, Memory, Pol, Wheel, WheelParts};

/// The kept edges of a wheel.
///
/// # Errors
/// Want of memory.
pub fn find_edges(alloc: Global, wheel: &Wheel) -> Result<Edges, Memory>
    ensures { IfOk result (λ edges. AreEdgesOf wheel.now.parts edges) }
{
    Ok(Edges {
        slots: wheel.parts().slots.as_slice().len() as u32,
        crank: edges_on(alloc, wheel, Channel::Crank)?,
        cam1: edges_on(alloc, wheel, Channel::Cam1)?,
        cam2: edges_on(alloc, wheel, Channel::Cam2)?,
    })
}

/// The kept edges of one channel.
fn edges_on(alloc: Global, wheel: &Wheel, channel: Channel) -> Result<List<Edge>, Memory>
    ensures edges { IfOk result (λ edges. edges ≡ edges_of wheel.now.parts channel) }
    ensures few { IfOk result (λ edges. length edges ≤ 4096) }
    ensures within { IfOk result (λ edges. All (λ e. e.slot < 4096) edges) }
{
    let mut edges = Vec::new(alloc);
    for slot in 0..wheel.parts().slots.as_slice().len() {
        if let Some(pol) = edge_before(wheel, channel, slot) {
            edges.push(Edge {
                slot: slot as u32,
                pol,
            })?;
        }
    }
    Ok(List::from_vec(edges))
}

/// The kept edge at the start of a slot.
fn edge_before(wheel: &Wheel, channel: Channel, slot: usize) -> Option<Pol>
    requires { slot < slot_count wheel.now.parts }
    ensures { result ≡ edge_at wheel.now.parts channel slot }
{
    let parts = wheel.parts();
    let before = if slot == 0 {
        parts.slots.as_slice().len() - 1
    } else {
        slot - 1
    };
    let pol = pol_between(level(parts, channel, before), level(parts, channel, slot))?;
    if is_kept(wheel.keep(channel), pol) {
        Some(pol)
    } else {
        None
    }
}

/// The level of a channel in a slot, 0 or 1.
fn level(parts: &WheelParts, channel: Channel, slot: usize) -> u8
    requires { slot < slot_count parts.now }
    ensures { result ≡ level_of parts.now channel slot }
{
    let weight = match channel {
        Channel::Crank => 1,
        Channel::Cam1 => 2,
        Channel::Cam2 => 4,
    };
    parts.slots.as_slice()[slot] / weight % 2
}

/// Which way the level goes from one to the other.
fn pol_between(before: u8, after: u8) -> Option<Pol>
    ensures { result ≡ change before after }
{
    match (before, after) {
        (0, 0) => None,
        (0, _) => Some(Pol::Rise),
        (_, 0) => Some(Pol::Fall),
        _ => None,
    }
}

/// Whether edges of this polarity are kept.
fn is_kept(keep: Keep, pol: Pol) -> bool
    ensures { kept keep (Some pol) ≡ some_if result pol }
{
    match (keep, pol) {
        (Keep::Both, _) | (Keep::Rising, Pol::Rise) | (Keep::Falling, Pol::Fall) => true,
        _ => false,
    }
}
