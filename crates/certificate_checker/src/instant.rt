//! The rules of a certificate at one instant, in order.
ghost use Rattle.std.specs.Prelude.{ℕ, ◌≡◌, ◌<◌, ◌↔◌, [], ◌∷◌, List as Items, IsTrue, All, IfSome, MatchOption, ◌<ℤ◌};
ghost use Rattle.wheel_types.specs.declared.place.Place.{Place as Spot};
ghost use Rattle.wheel_types.specs.declared.instant.Instant.{Instant as Moment};
ghost use Rattle.wheel_types.specs.declared.verdict.Verdict.{Verdict as Judgement};
ghost use Rattle.cam_ranges.specs.Places.{IsPlace, IsAscending};
ghost use Rattle.plain_motion.specs.Sets.{StandsFor, wheel_of, last_of};
ghost use Rattle.legal_steps.specs.Times.{IsSmall};
ghost use Rattle.std.specs.Prelude.{Some, None, IfOk};
ghost use Rattle.std.specs.declared.option.Option.{Option as Maybe};
ghost use Rattle.std.specs.Option.{option_map};
ghost use Rattle.certificate_checker.specs.Situations.{window_after};
ghost use Rattle.certificate_checker.specs.Rules.{HoldsSteps};
ghost use Rattle.certificate_checker.specs.Stages.{IsKept, StandsIn, HasTaken};
ghost use Rattle.certificate_checker.specs.Valid.{KeepsRules, situation_of};
ghost use Rattle.certificate_checker.specs.Answers.{BreaksFirst};
ghost use Rattle.certificate_checker.specs.Checking.{AreFrom, Tells, KeepsBelow, IsBasisOf};

use crate::basis::Basis;
use crate::lines::{has_cert_line, has_cover, has_report_line, holds_position};
use crate::rule::Rule;
use crate::steps::{has_step, holds_all};
use crate::walks::{holds_least_ends, holds_loss, holds_starts, is_nothing};
use pair_certificate::CertLine;
use plain_motion::PlainSet;
use wheel_types::{Instant, Memory, Place, Report, Verdict, Wheel};

/// Whether a cover holds every legal step of these places, or none of them has one where the verdict is a loss.
fn holds_steps(
    set: &PlainSet,
    from: &[Place],
    instant: &Instant,
    verdict: Verdict,
    cover: &[Place],
) -> bool
    requires places { All (IsPlace (wheel_of set.now)) from.now }
    requires ascend { IsAscending cover.now }
    requires later { IfSome (last_of set.now) (λ t. t <ℤ instant.now.time) }
    requires time { IsSmall instant.now.time }
    ensures { (past : Items Moment) (verdicts : Items Judgement) (s : StandsFor set.now past verdicts)
        (reached : Items Spot) → AreFrom (wheel_of set.now) s.kept.window reached from.now
        → IsTrue result ↔ HoldsSteps (wheel_of set.now) s.kept.window reached instant.now verdict cover.now }
{
    match verdict {
        Verdict::Lost => !has_step(set, from, instant),
        _ => holds_all(set, from, instant, cover),
    }
}

/// The first rule of those on lines, covers and steps that the instant's lines break.
pub fn broken_before_step(
    wheel: &Wheel,
    basis: &Basis,
    set: &PlainSet,
    from: &[Place],
    index: u64,
    instant: &Instant,
    report: &Report,
    line: &CertLine,
) -> Option<Rule>
    requires basis { IsBasisOf wheel.now.parts basis.now }
    requires wheel { wheel_of set.now ≡ wheel.now.parts }
    requires places { All (IsPlace wheel.now.parts) from.now }
    requires later { IfSome (last_of set.now) (λ t. t <ℤ instant.now.time) }
    requires time { IsSmall instant.now.time }
    ensures ascend { result ≡ None → IsAscending line.now.cover }
    ensures rules { (past : Items Moment) (verdicts : Items Judgement) (s : StandsFor set.now past verdicts)
        (reached : Items Spot) → AreFrom wheel.now.parts s.kept.window reached from.now
        → MatchOption result
        (KeepsBelow wheel.now.parts (situation_of index s.kept.window reached instant.now report.now line.now) 7)
        (λ r. BreaksFirst wheel.now.parts (situation_of index s.kept.window reached instant.now report.now line.now) r) }
{
    if !has_report_line(index, instant, report) {
        return Some(Rule::ReportLine);
    }
    if !has_cert_line(index, report, line) {
        return Some(Rule::CertLine);
    }
    let cover = line.cover.as_slice();
    if !has_cover(wheel, basis.places.as_slice(), cover) {
        return Some(Rule::Cover);
    }
    if !holds_steps(set, from, instant, report.verdict, cover) {
        return Some(Rule::Steps);
    }
    if !holds_position(wheel, &basis.edges, report.verdict, cover) {
        return Some(Rule::Position);
    }
    None
}

/// The first rule of those on walks and losses that the instant's lines break, where they keep those before. The set has taken
/// the instant, with this verdict.
pub fn broken_after_step(
    wheel: &Wheel,
    basis: &Basis,
    set: &PlainSet,
    verdict: Verdict,
    is_first: bool,
    instant: &Instant,
    report: &Report,
    line: &CertLine,
) -> Option<Rule>
    requires basis { IsBasisOf wheel.now.parts basis.now }
    requires wheel { wheel_of set.now ≡ wheel.now.parts }
    requires ascend { IsAscending line.now.cover }
    requires time { IsSmall instant.now.time }
    ensures { (past : Items Moment) (verdicts : Items Judgement) (s : StandsFor set.now past verdicts)
        (n : ℕ) (before : Items Moment) (reached : Items Spot) → Tells wheel.now.parts (instant.now ∷ before) verdict s.kept.window
        → IsTrue is_first ↔ (before ≡ [])
        → KeepsBelow wheel.now.parts (situation_of n before reached instant.now report.now line.now) 7
        → MatchOption result (KeepsRules wheel.now.parts (situation_of n before reached instant.now report.now line.now))
        (λ r. BreaksFirst wheel.now.parts (situation_of n before reached instant.now report.now line.now) r) }
{
    let cover = line.cover.as_slice();
    if !holds_starts(set, verdict, line.kind) {
        return Some(Rule::Starts);
    }
    if !holds_least_ends(set, verdict, report.verdict, line.kind, cover) {
        return Some(Rule::LeastEnds);
    }
    if !holds_loss(basis, wheel, instant, is_first, report.verdict, cover) {
        return Some(Rule::Loss);
    }
    None
}

/// The cover to keep for the next instant: none where that comes into a window without an instant.
pub fn kept_cover<'a>(is_first: bool, report: &Report, line: &'a CertLine) -> Option<&'a [Place]>
    ensures { (i : Moment) (before : Items Moment) → IsTrue is_first ↔ (before ≡ [])
        → IsKept (option_map (λ c. c.now) result) (window_after i before report.now.verdict line.now.cover) line.now.cover }
{
    let cover = line.cover.as_slice();
    match report.verdict {
        Verdict::Lost if is_first || is_nothing(cover) => None,
        _ => Some(cover),
    }
}

/// The places from which the next instant's steps are taken.
fn places_from<'a>(wheel: &Wheel, basis: &'a Basis, kept: Option<&'a [Place]>) -> &'a [Place]
    requires basis { IsBasisOf wheel.now.parts basis.now }
    requires places { IfSome kept (λ cover. All (IsPlace wheel.now.parts) cover.now) }
    ensures places { All (IsPlace wheel.now.parts) result.now }
    ensures from { (before : Items Moment) (reached : Items Spot) → IsKept (option_map (λ c. c.now) kept.entry) before reached
        → AreFrom wheel.now.parts before reached result.now }
{
    match kept {
        Some(cover) => cover,
        None => basis.places.as_slice(),
    }
}

/// Whether the next instant is the first of its window.
pub fn is_first(kept: Option<&[Place]>) -> bool
    ensures { (before : Items Moment) (reached : Items Spot) → IsKept (option_map (λ c. c.now) kept.entry) before reached
        → IsTrue result ↔ (before ≡ []) }
{
    match kept {
        Some(_) => false,
        None => true,
    }
}

/// Takes an instant, where its lines keep the rules, and answers the first rule that they break.
///
/// # Errors
/// Want of memory.
pub fn check_instant(
    wheel: &Wheel,
    basis: &Basis,
    set: &mut PlainSet,
    kept: Option<&[Place]>,
    index: u64,
    instant: &Instant,
    report: &Report,
    line: &CertLine,
) -> Result<Option<Rule>, Memory>
    requires basis { IsBasisOf wheel.now.parts basis.now }
    requires wheel { wheel_of set.old ≡ wheel.now.parts }
    requires places { IfSome kept (λ cover. All (IsPlace wheel.now.parts) cover.now) }
    requires later { IfSome (last_of set.old) (λ t. t <ℤ instant.now.time) }
    requires time { IsSmall instant.now.time }
    ensures last { IfOk result (λ rule. rule ≡ None → last_of set.new ≡ Some instant.now.time) }
    ensures wheel { wheel_of set.new ≡ wheel_of set.old }
    ensures answer { IfOk result (λ rule. (before : Items Moment) (reached : Items Spot)
        → StandsIn wheel.now.parts set.old (option_map (λ c. c.now) kept.entry) before reached
        → MatchOption rule
        ((next : Maybe (Items Spot)) → IsKept next (window_after instant.now before report.now.verdict line.now.cover) line.now.cover
        → HasTaken wheel.now.parts set.new index before reached instant.now report.now line.now next)
        (λ r. BreaksFirst wheel.now.parts (situation_of index before reached instant.now report.now line.now) r)) }
{
    let from = places_from(wheel, basis, kept);
    if let Some(rule) = broken_before_step(wheel, basis, set, from, index, instant, report, line) {
        return Ok(Some(rule));
    }
    let verdict = set.step(instant)?;
    Ok(broken_after_step(
        wheel,
        basis,
        set,
        verdict,
        is_first(kept),
        instant,
        report,
        line,
    ))
}
