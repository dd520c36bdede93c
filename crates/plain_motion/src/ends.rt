//! The end places of a window.
ghost use Rattle.std.specs.Prelude.{◌≡◌, ◌↔◌, true, IfOk, Contains, MatchOption};
ghost use Rattle.plain_motion.specs.declared.window.Walk.{Walk as Way};
ghost use Rattle.std.specs.List.{Any};
ghost use Rattle.std.specs.List.Sorted.{IsStrictlySortedBy};
ghost use Rattle.wheel_types.specs.declared.place.Place.{Place as Spot};
ghost use Rattle.cam_ranges.specs.Places.{IsAscending};
ghost use Rattle.plain_motion.specs.Ends.{starts_of};
ghost use Rattle.plain_motion.specs.EndPlaces.{IsEndIn, AreEndsIn};

use crate::window::{Walk, Window};
use cam_ranges::is_less;
use std::alloc::Global;
use wheel_types::{List, Memory, Place};

/// The end place of each walk.
fn all_ends(alloc: Global, walks: &[Walk]) -> Result<Vec<Place>, Memory>
    ensures { IfOk result (λ ends. (p : Spot) → Contains ends.items p ↔ IsEndIn walks.now p) }
{
    let mut ends = Vec::with_capacity(alloc, walks.len())?;
    for walk in walks {
        ends.push(walk.end)?;
    }
    Ok(ends)
}

/// Puts items in order, each once.
fn put_in_order<T: Ord + Copy>(items: &mut Vec<T>)
    ensures sorted { IsStrictlySortedBy T.cmp items.new.items }
    ensures none_added { (x : T) → Contains items.new.items x → Contains items.old.items x }
    ensures none_lost { (x : T) → Contains items.old.items x → Any (λ y. T.eq x y ≡ true) items.new.items }
{
    items.sort_unstable();
    items.dedup();
}

/// Puts places in order, each once.
fn put_places_in_order(places: &mut Vec<Place>)
    ensures ascend { IsAscending places.new.items }
    ensures same { (p : Spot) → Contains places.new.items p ↔ Contains places.old.items p }
{
    put_in_order(places);
}

/// The end places of a window's walks, ascending, each once; none before its first instant.
pub fn ends_of(alloc: Global, window: &Window) -> Result<List<Place>, Memory>
    ensures { IfOk result (λ ends. AreEndsIn window.now ends) }
{
    if !window.begun {
        return Ok(List::from_vec(Vec::new(alloc)));
    }
    let mut ends = all_ends(alloc, window.walks.as_slice())?;
    put_places_in_order(&mut ends);
    Ok(List::from_vec(ends))
}

/// A walk that ends at the place, if there is one.
pub fn walk_to(walks: &[Walk], end: Place) -> Option<Walk>
    ensures { MatchOption result ((v : Way) → Contains walks.now v → v.end ≡ end → ⊥) (λ v. Contains walks.now v × (v.end ≡ end)) }
{
    for walk in walks {
        if walk.end == end {
            return Some(*walk);
        }
    }
    None
}

/// The walk that begins at the place, if there is one. The walks, whose starts ascend, are halved until it is found, or none of them is
/// left.
pub fn walk_from(walks: &[Walk], start: Place) -> Option<Walk>
    ensures { IsAscending (starts_of walks.now) → MatchOption result ((v : Way) → Contains walks.now v → v.start ≡ start → ⊥)
        (λ v. Contains walks.now v × (v.start ≡ start)) }
{
    let mut low = 0;
    let mut high = walks.len();
    while low < high {
        let middle = low + (high - low) / 2;
        let walk = walks[middle];
        if is_less(start, walk.start) {
            high = middle;
        } else if walk.start == start {
            return Some(walk);
        } else {
            low = middle + 1;
        }
    }
    None
}
