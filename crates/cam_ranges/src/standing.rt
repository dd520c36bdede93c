//! Where in a span of angles a wheel stands.
ghost use Rattle.std.specs.Prelude.{◌↔◌, ◌^◌, ◌<◌, ◌≤◌, ℤ, IsTrue, MatchOption, unsigned_abs};
ghost use Rattle.wheel_types.specs.Edges.{edge_count};
ghost use Rattle.wheel_types.specs.Motions.{Stands};
ghost use Rattle.wheel_types.specs.Steps.{indices_of};
ghost use Rattle.edge_angles.specs.EdgeTables.{AreEdgesOf};
ghost use Rattle.cam_ranges.specs.Spans.{IsGap, StandsIn, IsPart, IsCandidate};

use crate::angles::{angle, early, first_angle, last_angle, late};
use crate::first_edges::first_from;
use crate::span::{Candidates, Span};
use edge_angles::Edges;
use wheel_types::{Channel, Place, Wheel};

/// The angles from crank edge `j` to the next.
pub fn gap(wheel: &Wheel, edges: &Edges, j: u32) -> Span
    requires table { AreEdgesOf wheel.now.parts edges.now }
    requires position { j < edge_count wheel.now.parts Channel.Crank }
    ensures { IsGap wheel.now.parts j result }
{
    Span {
        low: angle(wheel, edges, Channel::Crank, j as i32),
        high: angle(wheel, edges, Channel::Crank, j as i32 + 1),
    }
}

/// The part of a span in which a cam stands with this edge next, if it does so at some angle.
pub fn standing_part(
    wheel: &Wheel,
    edges: &Edges,
    cam: Channel,
    next: i32,
    span: Span,
) -> Option<Span>
    requires table { AreEdgesOf wheel.now.parts edges.now }
    requires small { unsigned_abs next < 2 ^ 20 }
    ensures { MatchOption result (StandsIn wheel.now.parts cam next span → ⊥) (λ part. IsPart wheel.now.parts cam next span part) }
{
    if edges.cam_count(cam) == 0 {
        return if next == 0 { Some(span) } else { None };
    }
    let low = span.low.max(first_angle(wheel, edges, cam, next - 1));
    let high = span.high.min(last_angle(wheel, edges, cam, next));
    if low <= high {
        Some(Span { low, high })
    } else {
        None
    }
}

/// The edges of a cam with which next it stands at some angle of a span.
pub fn candidates(wheel: &Wheel, edges: &Edges, cam: Channel, span: Span) -> Candidates
    requires table { AreEdgesOf wheel.now.parts edges.now }
    ensures exact { (n : ℤ) → IsCandidate result n ↔ StandsIn wheel.now.parts cam n span }
    ensures first { unsigned_abs result.first < 2 ^ 20 }
    ensures end { unsigned_abs result.end < 2 ^ 20 }
{
    if edges.cam_count(cam) == 0 {
        return Candidates { first: 0, end: 1 };
    }
    let first = first_from(wheel, edges, cam, span.low - late(wheel, cam));
    let past = first_from(wheel, edges, cam, span.high + early(wheel, cam) + 1);
    Candidates {
        first,
        end: past + 1,
    }
}

/// Whether the engine stands at some angle with the next edges of a place. It takes no memory.
///
/// It asks the wheel's edges, a place at a crank edge of the first cycle, and cam edges below 2^20 in size.
pub fn stands(wheel: &Wheel, edges: &Edges, place: Place) -> bool
    requires table { AreEdgesOf wheel.now.parts edges.now }
    requires position { place.j < edge_count wheel.now.parts Channel.Crank }
    requires first { unsigned_abs place.n1 < 2 ^ 20 }
    requires second { unsigned_abs place.n2 < 2 ^ 20 }
    ensures { IsTrue result ↔ ((x : ℤ) × Stands wheel.now.parts x (indices_of place)) }
{
    let gap = gap(wheel, edges, place.j);
    match standing_part(wheel, edges, Channel::Cam1, place.n1, gap) {
        Some(part) => standing_part(wheel, edges, Channel::Cam2, place.n2, part).is_some(),
        None => false,
    }
}
