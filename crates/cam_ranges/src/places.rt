//! All places of a wheel.
ghost use Rattle.std.specs.Prelude.{◌≡◌, ◌+◌, ◌<◌, ◌≤◌, ◌++◌, [], ◌∷◌, ◌↔◌, ◌^◌, pos, ◌+ℤ◌, unsigned_abs, length, Contains, IfOk, IfErr, OnOk};
ghost use Rattle.wheel_types.specs.Edges.{edge_count};
ghost use Rattle.wheel_types.specs.declared.place.Place.{Place as Spot};
ghost use Rattle.edge_angles.specs.EdgeTables.{AreEdgesOf};
ghost use Rattle.cam_ranges.specs.Places.{IsPlace, IsAscending, HasTooMany};
ghost use Rattle.cam_ranges.specs.Gathered.{AreExactly, IsBeforePosition, IsBeforeFirst};
ghost use Rattle.cam_ranges.specs.Spans.{IsGap};

use crate::fault::PlaceFault;
use crate::span::Span;
use crate::standing::{candidates, gap, standing_part};
use edge_angles::Edges;
use std::alloc::Global;
use wheel_types::{Channel, Place, Wheel};

/// How many places a wheel may have.
const LIMIT: usize = 16_384;

/// Adds a place to a list that is not full.
fn add(places: &mut Vec<Place>, place: Place) -> Result<(), PlaceFault>
    ensures added { OnOk result (places.new.items ≡ places.old.items ++ place ∷ []) }
    ensures few { OnOk result (length places.new.items ≤ 16_384) }
    ensures many { IfErr result (λ fault. fault ≡ PlaceFault.TooMany → 16_384 ≤ length places.old.items) }
{
    if places.len() >= LIMIT {
        return Err(PlaceFault::TooMany);
    }
    places.push(place)?;
    Ok(())
}

/// Adds the places at position `j` with edge `n1` of the first cam next.
fn add_at_edge(
    wheel: &Wheel,
    edges: &Edges,
    gap: Span,
    j: u32,
    n1: i32,
    places: &mut Vec<Place>,
) -> Result<(), PlaceFault>
    requires table { AreEdgesOf wheel.now.parts edges.now }
    requires position { j < edge_count wheel.now.parts Channel.Crank }
    requires small { unsigned_abs n1 < 2 ^ 20 }
    requires gap { IsGap wheel.now.parts j gap }
    requires before { AreExactly (IsBeforeFirst wheel.now.parts j n1) places.old.items }
    requires few { length places.old.items ≤ 16_384 }
    ensures after { OnOk result (AreExactly (IsBeforeFirst wheel.now.parts j (n1 +ℤ pos 1)) places.new.items) }
    ensures few { OnOk result (length places.new.items ≤ 16_384) }
    ensures many { IfErr result (λ fault. fault ≡ PlaceFault.TooMany → HasTooMany wheel.now.parts) }
{
    let Some(part) = standing_part(wheel, edges, Channel::Cam1, n1, gap) else {
        return Ok(());
    };
    let seconds = candidates(wheel, edges, Channel::Cam2, part);
    for n2 in seconds.first..seconds.end {
        add(places, Place { j, n1, n2 })?;
    }
    Ok(())
}

/// Adds the places at position `j`.
fn add_at_position(
    wheel: &Wheel,
    edges: &Edges,
    j: u32,
    places: &mut Vec<Place>,
) -> Result<(), PlaceFault>
    requires table { AreEdgesOf wheel.now.parts edges.now }
    requires position { j < edge_count wheel.now.parts Channel.Crank }
    requires before { AreExactly (IsBeforePosition wheel.now.parts j) places.old.items }
    requires few { length places.old.items ≤ 16_384 }
    ensures after { OnOk result (AreExactly (IsBeforePosition wheel.now.parts (j + 1)) places.new.items) }
    ensures few { OnOk result (length places.new.items ≤ 16_384) }
    ensures many { IfErr result (λ fault. fault ≡ PlaceFault.TooMany → HasTooMany wheel.now.parts) }
{
    let gap = gap(wheel, edges, j);
    let firsts = candidates(wheel, edges, Channel::Cam1, gap);
    for n1 in firsts.first..firsts.end {
        add_at_edge(wheel, edges, gap, j, n1, places)?;
    }
    Ok(())
}

/// All places of a wheel, ascending, each once. It asks the wheel's edges.
///
/// # Errors
/// `TooMany` where the wheel has more than 16,384 places; want of memory.
pub fn all_places(alloc: Global, wheel: &Wheel, edges: &Edges) -> Result<Vec<Place>, PlaceFault>
    requires { AreEdgesOf wheel.now.parts edges.now }
    ensures ascend { IfOk result (λ places. IsAscending places.items) }
    ensures all { IfOk result (λ places. (p : Spot) → Contains places.items p ↔ IsPlace wheel.now.parts p) }
    ensures few { IfOk result (λ places. length places.items ≤ 16_384) }
    ensures not_more { OnOk result (HasTooMany wheel.now.parts → ⊥) }
    ensures many { IfErr result (λ fault. fault ≡ PlaceFault.TooMany → HasTooMany wheel.now.parts) }
{
    let mut places = Vec::new(alloc);
    for j in 0..edges.crank_count() {
        add_at_position(wheel, edges, j, &mut places)?;
    }
    Ok(places)
}
