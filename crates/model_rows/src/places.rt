//! Places of wheels.
ghost use Rattle.std.specs.Prelude.{IsTrue};
ghost use Rattle.cam_ranges.specs.Places.{IsPlace};

use crate::Told;
use crate::model::{Model, model_of};
use cam_ranges::{PlaceFault, all_places, stands};
use std::alloc::{AllocError, Global};
use wheel_types::Place;

/// What the cam edges of a place are below in size.
const NEAR: u32 = 1_048_576;

/// The place that a text as `2:0:-1` names.
pub fn place_of(text: &str) -> Option<Place> {
    let (j, cams) = text.split_once(':')?;
    let (n1, n2) = cams.split_once(':')?;
    Some(Place {
        j: j.parse::<u32>().ok()?,
        n1: n1.parse::<i32>().ok()?,
        n2: n2.parse::<i32>().ok()?,
    })
}

/// The text that names a place.
pub fn text_of_place(alloc: Global, place: Place) -> Result<String, AllocError> {
    format!(in alloc; "{}:{}:{}", place.j, place.n1, place.n2)
}

/// Whether a wheel stands at a place, where that can be asked.
fn stands_at(model: &Model, place: Place) -> Option<bool> {
    if place.j < model.edges.crank_count()
        && place.n1.unsigned_abs() < NEAR
        && place.n2.unsigned_abs() < NEAR
    {
        Some(stands(&model.wheel, &model.edges, place))
    } else {
        None
    }
}

/// Whether the place is one of the wheel.
pub fn is_place(model: &Model, place: Place) -> bool
    ensures { IsTrue result → IsPlace model.now.wheel.parts place }
{
    if place.n1.unsigned_abs() >= NEAR || place.n2.unsigned_abs() >= NEAR {
        return false;
    }
    place.j < model.edges.crank_count() && stands(&model.wheel, &model.edges, place)
}

/// The places of a wheel, with a blank between two of them.
fn listed(alloc: Global, places: &[Place]) -> Result<String, AllocError> {
    let mut text = String::new(alloc);
    for place in places {
        if !text.is_empty() {
            text.push(' ')?;
        }
        text.push_str(&text_of_place(alloc, *place)?)?;
    }
    Ok(text)
}

/// What is found of a wheel's places.
#[derive(Drop)]
enum Found {
    All(Vec<Place>),
    TooMany,
    NoWheel,
}

fn find_places(alloc: Global, lines: &[String]) -> Result<Found, AllocError> {
    let Some(model) = model_of(alloc, lines)? else {
        return Ok(Found::NoWheel);
    };
    match all_places(alloc, &model.wheel, &model.edges) {
        Ok(places) => Ok(Found::All(places)),
        Err(PlaceFault::TooMany) => Ok(Found::TooMany),
        Err(PlaceFault::Memory) => Err(AllocError),
    }
}

/// What is told of a wheel's places, or that there are too many.
pub fn told_of_places(alloc: Global, lines: &[String]) -> Told {
    match find_places(alloc, lines)? {
        Found::All(places) => Ok(Some(listed(alloc, &places)?)),
        Found::TooMany => Ok(Some(String::from_str(alloc, "too many")?)),
        Found::NoWheel => Ok(None),
    }
}

/// How many places a wheel has, or that there are too many.
pub fn told_of_count(alloc: Global, lines: &[String]) -> Told {
    match find_places(alloc, lines)? {
        Found::All(places) => Ok(Some(format!(in alloc; "{} places", places.len())?)),
        Found::TooMany => Ok(Some(String::from_str(alloc, "too many")?)),
        Found::NoWheel => Ok(None),
    }
}

/// Whether a wheel stands at a place, where that can be asked.
pub fn told_of_standing(alloc: Global, lines: &[String], place: &str) -> Told {
    let (Some(model), Some(place)) = (model_of(alloc, lines)?, place_of(place)) else {
        return Ok(None);
    };
    match stands_at(&model, place) {
        Some(true) => Ok(Some(String::from_str(alloc, "stands")?)),
        Some(false) => Ok(Some(String::from_str(alloc, "does not stand")?)),
        None => Ok(None),
    }
}
