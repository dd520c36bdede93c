//! The walks of all shapes.
ghost use Rattle.std.specs.Prelude.{◌≡◌, ◌↔◌, ◌≤◌, Contains, IfOk, length};
ghost use Rattle.wheel_types.specs.declared.place.Place.{Place as Spot};
ghost use Rattle.cam_ranges.specs.Places.{IsPlace, IsAscending};
ghost use Rattle.position_nfa.specs.Tables.{AreAllWalks};

use crate::walks::{Walks, instant_of, walks_of};
use legal_steps::Motions;
use std::alloc::Global;
use wheel_types::{Memory, Place};

/// The walks of every shape.
pub fn all_walks(alloc: Global, motions: &Motions, places: &[Place]) -> Result<Vec<Walks>, Memory>
    requires ascend { IsAscending places.now }
    requires all { (p : Spot) → Contains places.now p ↔ IsPlace motions.now.wheel.parts p }
    requires few { length places.now ≤ 16384 }
    ensures shapes { IfOk result (λ walks. length walks.items ≡ 26) }
    ensures walks { IfOk result (λ walks. AreAllWalks motions.now.wheel.parts places.now walks.items) }
{
    let mut walks = Vec::with_capacity(alloc, 26)?;
    for shape in 1..27 {
        walks.push(walks_of(alloc, motions, places, &instant_of(shape))?)?;
    }
    Ok(walks)
}
