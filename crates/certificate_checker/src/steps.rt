//! Legal steps of places, and walks, by a set that is stepped along.
ghost use Rattle.std.specs.Prelude.{◌↔◌, ◌<ℤ◌, List as Items, IsTrue, All, Contains, IfSome};
ghost use Rattle.wheel_types.specs.Verdicts.{IsBefore};
ghost use Rattle.plain_motion.specs.Ends.{IsOther};
ghost use Rattle.wheel_types.specs.declared.place.Place.{Place as Spot};
ghost use Rattle.wheel_types.specs.declared.instant.Instant.{Instant as Moment};
ghost use Rattle.wheel_types.specs.declared.verdict.Verdict.{Verdict as Judgement};
ghost use Rattle.cam_ranges.specs.Places.{IsPlace, IsAscending};
ghost use Rattle.wheel_types.specs.Steps.{IsLegalStep};
ghost use Rattle.plain_motion.specs.Sets.{StandsFor, wheel_of, last_of};
ghost use Rattle.legal_steps.specs.Times.{IsSmall};
ghost use Rattle.certificate_checker.specs.Checking.{HoldsAll, HasStep, IsLeastNotAt};

use crate::lines::has_place;
use cam_ranges::is_less;
use plain_motion::PlainSet;
use wheel_types::{Instant, Place};

/// Whether the cover, which ascends, holds every legal step of these places.
pub fn holds_all(set: &PlainSet, from: &[Place], instant: &Instant, cover: &[Place]) -> bool
    requires places { All (IsPlace (wheel_of set.now)) from.now }
    requires ascend { IsAscending cover.now }
    requires later { IfSome (last_of set.now) (λ t. t <ℤ instant.now.time) }
    requires time { IsSmall instant.now.time }
    ensures { (past : Items Moment) (verdicts : Items Judgement) (s : StandsFor set.now past verdicts)
        → IsTrue result ↔ HoldsAll (wheel_of set.now) s.kept.window from.now instant.now cover.now }
{
    for place in from {
        if !holds_step(set, *place, instant, cover) {
            return false;
        }
    }
    true
}

/// Whether the cover holds the legal step of a place, if it has one.
fn holds_step(set: &PlainSet, from: Place, instant: &Instant, cover: &[Place]) -> bool
    requires place { IsPlace (wheel_of set.now) from }
    requires ascend { IsAscending cover.now }
    requires later { IfSome (last_of set.now) (λ t. t <ℤ instant.now.time) }
    requires time { IsSmall instant.now.time }
    ensures { (past : Items Moment) (verdicts : Items Judgement) (s : StandsFor set.now past verdicts)
        → IsTrue result ↔ ((q : Spot) → IsLegalStep (wheel_of set.now) s.kept.window from instant.now q → Contains cover.now q) }
{
    match set.legal(from, instant) {
        Some(end) => has_place(cover, end),
        None => true,
    }
}

/// Whether a place has a legal step.
fn steps(set: &PlainSet, from: Place, instant: &Instant) -> bool
    requires place { IsPlace (wheel_of set.now) from }
    requires later { IfSome (last_of set.now) (λ t. t <ℤ instant.now.time) }
    requires time { IsSmall instant.now.time }
    ensures { (past : Items Moment) (verdicts : Items Judgement) (s : StandsFor set.now past verdicts)
        → IsTrue result ↔ ((q : Spot) × IsLegalStep (wheel_of set.now) s.kept.window from instant.now q) }
{
    match set.legal(from, instant) {
        Some(_) => true,
        None => false,
    }
}

/// Whether one of these places has a legal step.
pub fn has_step(set: &PlainSet, from: &[Place], instant: &Instant) -> bool
    requires places { All (IsPlace (wheel_of set.now)) from.now }
    requires later { IfSome (last_of set.now) (λ t. t <ℤ instant.now.time) }
    requires time { IsSmall instant.now.time }
    ensures { (past : Items Moment) (verdicts : Items Judgement) (s : StandsFor set.now past verdicts)
        → IsTrue result ↔ HasStep (wheel_of set.now) s.kept.window from.now instant.now }
{
    for place in from {
        if steps(set, *place, instant) {
            return true;
        }
    }
    false
}

/// Whether another place leaves a place the least of those that are not at this position.
fn leaves_least(but: Option<u32>, place: Place, other: Place) -> bool
    ensures { IsTrue result ↔ (IsOther but other.j → IsBefore place other) }
{
    match but {
        Some(j) => j == other.j || !is_less(other, place),
        None => !is_less(other, place),
    }
}

/// Whether a place is at another position than this one.
fn is_other(but: Option<u32>, place: Place) -> bool
    ensures { IsTrue result ↔ IsOther but place.j }
{
    match but {
        Some(j) => place.j != j,
        None => true,
    }
}

/// Whether the place is the least of the cover, which ascends, of those that are not at this position.
pub fn is_least(cover: &[Place], but: Option<u32>, place: Place) -> bool
    requires { IsAscending cover.now }
    ensures { IsTrue result ↔ IsLeastNotAt cover.now but place }
{
    if !is_other(but, place) || !has_place(cover, place) {
        return false;
    }
    for other in cover {
        if !leaves_least(but, place, *other) {
            return false;
        }
    }
    true
}
