//! Rules of a certificate on walks and on losses, at an instant that a set has taken.
ghost use Rattle.std.specs.Prelude.{◌≡◌, ◌<◌, ◌↔◌, [], ◌∷◌, List as Items, IsTrue, MatchOption};
ghost use Rattle.wheel_types.specs.declared.place.Place.{Place as Spot};
ghost use Rattle.wheel_types.specs.declared.instant.Instant.{Instant as Moment};
ghost use Rattle.wheel_types.specs.declared.verdict.Verdict.{Verdict as Judgement};
ghost use Rattle.wheel_types.specs.Edges.{edge_count};
ghost use Rattle.cam_ranges.specs.Places.{IsAscending};
ghost use Rattle.plain_motion.specs.Sets.{StandsFor, wheel_of};
ghost use Rattle.legal_steps.specs.Times.{IsSmall};
ghost use Rattle.certificate_checker.specs.Situations.{IsWalk};
ghost use Rattle.certificate_checker.specs.Rules.{HoldsStarts, EndsLeast, HoldsLeastEnds, HoldsFresh, HoldsLoss};
ghost use Rattle.certificate_checker.specs.Checking.{Tells, IsBasisOf};

use crate::basis::Basis;
use crate::lines::is_same;
use crate::steps::{has_step, holds_all, is_least};
use pair_certificate::CertKind;
use plain_motion::PlainSet;
use wheel_types::{Channel, Instant, Place, Verdict, Wheel};

/// Where the walk from a place ends, by the set that took the instant with this verdict.
fn end_of(set: &PlainSet, verdict: Verdict, start: Place) -> Option<Place>
    ensures { (past : Items Moment) (verdicts : Items Judgement) (s : StandsFor set.now past verdicts)
        (i : Moment) (before : Items Moment) → Tells (wheel_of set.now) (i ∷ before) verdict s.kept.window
        → MatchOption result ((e : Spot) → ¬ IsWalk (wheel_of set.now) (i ∷ before) start e)
        (λ e. IsWalk (wheel_of set.now) (i ∷ before) start e) }
{
    match verdict {
        Verdict::Lost => None,
        _ => set.end_of(start),
    }
}

/// Whether a place begins a walk.
fn is_start(set: &PlainSet, verdict: Verdict, start: Place) -> bool
    ensures { (past : Items Moment) (verdicts : Items Judgement) (s : StandsFor set.now past verdicts)
        (i : Moment) (before : Items Moment) → Tells (wheel_of set.now) (i ∷ before) verdict s.kept.window
        → IsTrue result ↔ ((e : Spot) × IsWalk (wheel_of set.now) (i ∷ before) start e) }
{
    match end_of(set, verdict, start) {
        Some(_) => true,
        None => false,
    }
}

/// Whether the places that a line names begin walks.
pub fn holds_starts(set: &PlainSet, verdict: Verdict, kind: CertKind) -> bool
    ensures { (past : Items Moment) (verdicts : Items Judgement) (s : StandsFor set.now past verdicts)
        (i : Moment) (before : Items Moment) → Tells (wheel_of set.now) (i ∷ before) verdict s.kept.window
        → IsTrue result ↔ HoldsStarts (wheel_of set.now) (i ∷ before) kind }
{
    match kind {
        CertKind::At { a } => is_start(set, verdict, a),
        CertKind::Open { a, b } => is_start(set, verdict, a) && is_start(set, verdict, b),
        CertKind::Lost => true,
    }
}

/// Whether the walks from two places end at the least places of a cover.
fn ends_least(set: &PlainSet, verdict: Verdict, a: Place, b: Place, cover: &[Place]) -> bool
    requires crank { 0 < edge_count (wheel_of set.now) Channel.Crank }
    requires ascend { IsAscending cover.now }
    ensures { (past : Items Moment) (verdicts : Items Judgement) (s : StandsFor set.now past verdicts)
        (i : Moment) (before : Items Moment) → Tells (wheel_of set.now) (i ∷ before) verdict s.kept.window
        → IsTrue result ↔ EndsLeast (wheel_of set.now) (i ∷ before) cover.now a b }
{
    let Some(first) = end_of(set, verdict, a) else {
        return false;
    };
    let Some(second) = end_of(set, verdict, b) else {
        return false;
    };
    let is_first = is_least(cover, None, first);
    let is_next = is_least(cover, Some(first.j), second);
    is_first && is_next
}

/// Whether two places are two others.
fn are_same(x: Place, y: Place, a: Place, b: Place) -> bool
    ensures { IsTrue result ↔ ((x ≡ a) × (y ≡ b)) }
{
    is_same(x, a) && is_same(y, b)
}

/// Whether an open report names the places of the line, and their walks end at the least places of the cover.
pub fn holds_least_ends(
    set: &PlainSet,
    verdict: Verdict,
    reported: Verdict,
    kind: CertKind,
    cover: &[Place],
) -> bool
    requires crank { 0 < edge_count (wheel_of set.now) Channel.Crank }
    requires ascend { IsAscending cover.now }
    ensures { (past : Items Moment) (verdicts : Items Judgement) (s : StandsFor set.now past verdicts)
        (i : Moment) (before : Items Moment) → Tells (wheel_of set.now) (i ∷ before) verdict s.kept.window
        → IsTrue result ↔ HoldsLeastEnds (wheel_of set.now) (i ∷ before) reported kind cover.now }
{
    match (reported, kind) {
        (Verdict::Open { a: x, b: y }, CertKind::Open { a, b }) => {
            let is_named = are_same(x, y, a, b);
            let is_least = ends_least(set, verdict, a, b, cover);
            is_named && is_least
        }
        _ => true,
    }
}

/// Whether a cover has no place.
pub fn is_nothing(cover: &[Place]) -> bool
    ensures { IsTrue result ↔ (cover.now ≡ []) }
{
    match cover {
        [] => true,
        _ => false,
    }
}

/// Whether a cover holds every place that the instant alone comes to, and is empty exactly where there is none.
fn holds_fresh(basis: &Basis, wheel: &Wheel, instant: &Instant, cover: &[Place]) -> bool
    requires basis { IsBasisOf wheel.now.parts basis.now }
    requires ascend { IsAscending cover.now }
    requires time { IsSmall instant.now.time }
    ensures { IsTrue result ↔ HoldsFresh wheel.now.parts instant.now cover.now }
{
    let places = basis.places.as_slice();
    let is_held = holds_all(&basis.fresh, places, instant, cover);
    let is_some = has_step(&basis.fresh, places, instant);
    let is_empty = is_nothing(cover);
    is_held && is_some != is_empty
}

/// Whether the cover of a loss holds the steps that begin the next window, or is empty where the window began with this instant.
pub fn holds_loss(
    basis: &Basis,
    wheel: &Wheel,
    instant: &Instant,
    is_first: bool,
    reported: Verdict,
    cover: &[Place],
) -> bool
    requires basis { IsBasisOf wheel.now.parts basis.now }
    requires ascend { IsAscending cover.now }
    requires time { IsSmall instant.now.time }
    ensures { (before : Items Moment) → IsTrue is_first ↔ (before ≡ [])
        → IsTrue result ↔ HoldsLoss wheel.now.parts instant.now before reported cover.now }
{
    match reported {
        Verdict::Lost => {
            if is_first {
                is_nothing(cover)
            } else {
                holds_fresh(basis, wheel, instant, cover)
            }
        }
        _ => true,
    }
}
