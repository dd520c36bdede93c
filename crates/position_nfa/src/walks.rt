//! The walks of shapes, from place to place.
ghost use Rattle.std.specs.Prelude.{◌≡◌, ◌↔◌, ◌+◌, ◌*◌, ◌%◌, ◌/◌, ◌<◌, ◌≤◌, All, Contains, IsTrue, IfOk, length, pos, slice_index_or, ℕ};
ghost use Rattle.wheel_types.specs.Shapes.{edge_of};
ghost use Rattle.wheel_types.specs.declared.place.Place.{Place as Spot};
ghost use Rattle.cam_ranges.specs.Places.{IsPlace, IsLess, IsAscending};
ghost use Rattle.position_nfa.specs.Walking.{IsWalkTable, IsWalkTableTo, instant_end};
ghost use Rattle.position_nfa.specs.Alphabets.{nth};

use crate::masks::{words_of, zeros};
use legal_steps::Motions;
use std::alloc::Global;
use wheel_types::{Instant, List, Memory, Place, Pol};

/// The walks of a shape: the set of the places from which there is one, and for each place the number of the
/// place where its walk ends. No numbers are kept where the set is empty.
#[derive(Debug, Drop)]
pub struct Walks {
    /// The set of the places from which there is a walk.
    pub sources: List<u64>,
    /// The number of the place where it ends, for each place of this set; 0 for the others.
    pub targets: List<u32>,
}

/// The edge that a digit of a shape stands for.
fn edge(digit: u32) -> Option<Pol>
    ensures { result ≡ edge_of digit }
{
    match digit {
        0 => None,
        1 => Some(Pol::Rise),
        _ => Some(Pol::Fall),
    }
}

/// An instant of the shape of this number.
pub fn instant_of(shape: u32) -> Instant
    requires { (1 ≤ shape) × (shape ≤ 26) }
    ensures crank { result.crank ≡ edge_of (shape % 3) }
    ensures cam1 { result.cam1 ≡ edge_of (shape / 3 % 3) }
    ensures cam2 { result.cam2 ≡ edge_of (shape / 9) }
{
    Instant {
        time: 0,
        crank: edge(shape % 3),
        cam1: edge(shape / 3 % 3),
        cam2: edge(shape / 9),
    }
}

/// Whether a place stands before another.
fn is_before(first: Place, second: Place) -> bool
    ensures { IsTrue result ↔ IsLess first second }
{
    first.j < second.j
        || first.j == second.j
            && (first.n1 < second.n1 || first.n1 == second.n1 && first.n2 < second.n2)
}

/// The number of a place among ascending ones.
fn number_of(places: &[Place], place: Place) -> usize
    requires ascend { IsAscending places.now }
    requires there { Contains places.now place }
    ensures within { result < length places.now }
    ensures at { (d : Spot) → slice_index_or places.now result d ≡ place }
{
    let mut low = 0;
    let mut high = places.len();
    while high - low > 1 {
        let middle = low + (high - low) / 2;
        if is_before(place, places[middle]) {
            high = middle;
        } else {
            low = middle;
        }
    }
    low
}

/// Adds the walk from place `i`, where there is one.
fn add_walk(
    motions: &Motions,
    places: &[Place],
    instant: &Instant,
    i: usize,
    sources: &mut [u64],
    targets: &mut Vec<u32>,
) -> Result<(), Memory>
    requires ascend { IsAscending places.now }
    requires all { (p : Spot) → Contains places.now p ↔ IsPlace motions.now.wheel.parts p }
    requires few { length places.now ≤ 16384 }
    requires place { i < length places.now }
    requires before { IsWalkTableTo (length places.now) i (instant_end motions.now.wheel.parts places.now instant.now)
        (nth places.now) sources.old targets.old.items }
    ensures after { IfOk result (λ u. IsWalkTableTo (length places.now) (i + 1)
        (instant_end motions.now.wheel.parts places.now instant.now) (nth places.now) sources.new targets.new.items) }
{
    match motions.pass_instant(places[i], instant) {
        Some(to) => {
            place_words::insert(sources, i);
            targets.push(number_of(places, to) as u32)?;
        }
        None => targets.push(0)?,
    }
    Ok(())
}

/// The walks of a shape.
pub fn walks_of(
    alloc: Global,
    motions: &Motions,
    places: &[Place],
    instant: &Instant,
) -> Result<Walks, Memory>
    requires ascend { IsAscending places.now }
    requires all { (p : Spot) → Contains places.now p ↔ IsPlace motions.now.wheel.parts p }
    requires few { length places.now ≤ 16384 }
    ensures { IfOk result (λ walks. IsWalkTable (length places.now) (instant_end motions.now.wheel.parts places.now instant.now)
        (nth places.now) walks.sources walks.targets) }
{
    let mut sources = zeros(alloc, words_of(places.len()))?;
    let mut targets = Vec::new(alloc);
    for i in 0..places.len() {
        add_walk(
            motions,
            places,
            instant,
            i,
            sources.as_mut_slice(),
            &mut targets,
        )?;
    }
    if place_words::is_empty(sources.as_slice()) {
        targets = Vec::new(alloc);
    }
    Ok(Walks {
        sources: List::from_vec(sources),
        targets: List::from_vec(targets),
    })
}
