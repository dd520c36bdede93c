//! Angles, polarities and gaps of unrolled edges.
ghost use Rattle.std.specs.Prelude.{◌≡◌, ◌≤◌, ◌<◌, ◌^◌, ◌*◌, ◌+◌, pos, unsigned_abs};
ghost use Rattle.wheel_types.specs.Edges.{edge_count, angle_of, pol_of, slot_count};
ghost use Rattle.wheel_types.specs.Speeds.{slots_between};
ghost use Rattle.edge_angles.specs.EdgeTables.{AreEdgesOf};

use edge_angles::Edges;
use wheel_types::{Channel, Pol, Wheel};

/// The angle of edge `edge` of a channel, counted on through all cycles. Angles are in units of which a millidegree has as many as the
/// wheel has slots.
pub fn angle(wheel: &Wheel, edges: &Edges, channel: Channel, edge: u64) -> i64
    requires table { AreEdgesOf wheel.now.parts edges.now }
    requires present { 0 < edge_count wheel.now.parts channel }
    requires few { edge ≤ 2 ^ 23 }
    ensures value { result ≡ angle_of wheel.now.parts channel (pos edge) }
    ensures small { unsigned_abs result ≤ 2 ^ 57 }
{
    let count = u64::from(edges.cam_count(channel));
    let slots = wheel.parts().slots.as_slice().len() as u64;
    let slot = edge / count * slots + u64::from(edges.cam_slot(channel, (edge % count) as u32));
    let units = 1000 * u64::from(wheel.parts().degrees);
    (units * slot) as i64
}

/// Its polarity.
pub fn polarity(wheel: &Wheel, edges: &Edges, channel: Channel, edge: u64) -> Pol
    requires table { AreEdgesOf wheel.now.parts edges.now }
    requires present { 0 < edge_count wheel.now.parts channel }
    ensures { result ≡ pol_of wheel.now.parts channel (pos edge) }
{
    let count = u64::from(edges.cam_count(channel));
    edges.cam_pol(channel, (edge % count) as u32)
}

/// How many slots are from a crank edge, counted on through all cycles, to the next.
pub fn slots_after(wheel: &Wheel, edges: &Edges, edge: u64) -> u32
    requires table { AreEdgesOf wheel.now.parts edges.now }
    ensures value { result ≡ slots_between wheel.now.parts (pos edge) (pos (edge + 1)) }
    ensures some { 1 ≤ result }
    ensures of_wheel { result ≤ slot_count wheel.now.parts }
{
    let count = u64::from(edges.crank_count());
    edges.crank_gap((edge % count) as u32)
}
