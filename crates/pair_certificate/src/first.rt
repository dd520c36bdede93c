//! A first reading of a report's line, which takes more than its grammar.
ghost use Rattle.std.specs.Prelude.{◌≡◌, ◌≤◌, IfSome};
ghost use Rattle.std.specs.Option.{option_map};
ghost use Rattle.pair_certificate.specs.FirstReports as first;
ghost use Rattle.pair_certificate.specs.Reports.{IsReportInRange, IsVerdictInRange};

use crate::numbers::{after_text, number_at, place_at, signed_at};
use wheel_types::{Report, Shape, Verdict};

/// The greatest size of a time, in femtoseconds: a billion seconds.
const LAST_TIME: u128 = 1_000_000_000_000_000_000_000_000;

/// The edge of a channel at the front, as a digit, and what follows it.
#[tactic(auto, unfolding(crate::specs::FirstReports::edge_at))]
fn edge_at<'a>(bytes: &'a [u8], rise: &[u8], fall: &[u8]) -> (u32, &'a [u8])
    ensures value { (result.0, result.1.now) ≡ first.edge_at rise.now fall.now bytes.now }
    ensures digit { result.0 ≤ 2 }
{
    match after_text(bytes, rise) {
        Some(rest) => (1, rest),
        None => match after_text(bytes, fall) {
            Some(rest) => (2, rest),
            None => (0, bytes),
        },
    }
}

/// The number of the shape at the front, and what follows it.
#[tactic(auto, unfolding(crate::specs::FirstReports::shape_at))]
fn shape_at(bytes: &[u8]) -> Option<(u32, &[u8])>
    ensures value { option_map (λ x. (x.0, x.1.now)) result ≡ first.shape_at bytes.now }
    ensures least { IfSome result (λ x. 1 ≤ x.0) }
    ensures most { IfSome result (λ x. x.0 ≤ 26) }
{
    let (crank, rest) = edge_at(bytes, b"C+", b"C-");
    let (cam1, rest) = edge_at(rest, b"1+", b"1-");
    let (cam2, rest) = edge_at(rest, b"2+", b"2-");
    let number = crank + 3 * cam1 + 9 * cam2;
    if number == 0 {
        return None;
    }
    Some((number, rest))
}

/// The position and slot at the front, and what follows them.
#[tactic(auto, unfolding(crate::specs::FirstReports::at_verdict))]
fn at_verdict(bytes: &[u8]) -> Option<(Verdict, &[u8])>
    ensures range { IfSome result (λ x. IsVerdictInRange x.0) }
    ensures value { option_map (λ x. (x.0, x.1.now)) result ≡ first.at_verdict bytes.now }
{
    let (j, rest) = number_at(bytes, u128::from(u32::MAX))?;
    let rest = after_text(rest, b" slot ")?;
    let (slot, rest) = number_at(rest, u128::from(u32::MAX))?;
    let verdict = Verdict::At {
        j: j as u32,
        slot: slot as u32,
    };
    Some((verdict, rest))
}

/// The two places at the front, and what follows them.
#[tactic(auto, unfolding(crate::specs::FirstReports::open_verdict))]
fn open_verdict(bytes: &[u8]) -> Option<(Verdict, &[u8])>
    ensures range { IfSome result (λ x. IsVerdictInRange x.0) }
    ensures value { option_map (λ x. (x.0, x.1.now)) result ≡ first.open_verdict bytes.now }
{
    let (a, rest) = place_at(bytes)?;
    let rest = after_text(rest, b" ")?;
    let (b, rest) = place_at(rest)?;
    Some((Verdict::Open { a, b }, rest))
}

/// The verdict at the front, and what follows it.
#[tactic(auto, unfolding(crate::specs::FirstReports::verdict_at))]
fn verdict_at(bytes: &[u8]) -> Option<(Verdict, &[u8])>
    ensures range { IfSome result (λ x. IsVerdictInRange x.0) }
    ensures value { option_map (λ x. (x.0, x.1.now)) result ≡ first.verdict_at bytes.now }
{
    if let Some(rest) = after_text(bytes, b"at ") {
        return at_verdict(rest);
    }
    if let Some(rest) = after_text(bytes, b"open ") {
        return open_verdict(rest);
    }
    let rest = after_text(bytes, b"lost")?;
    Some((Verdict::Lost, rest))
}

/// The record of a line.
#[tactic(auto, unfolding(crate::specs::FirstReports::report_at))]
pub fn report_at(bytes: &[u8]) -> Option<Report>
    ensures value { result ≡ first.report_at bytes.now }
    ensures range { IfSome result IsReportInRange }
{
    let (index, rest) = number_at(bytes, u128::from(u64::MAX))?;
    let rest = after_text(rest, b" ")?;
    let (time, rest) = signed_at(rest, LAST_TIME, LAST_TIME)?;
    let rest = after_text(rest, b" ")?;
    let (shape, rest) = shape_at(rest)?;
    let rest = after_text(rest, b" ")?;
    let (verdict, _) = verdict_at(rest)?;
    Some(Report {
        index: index as u64,
        time,
        shape: Shape::new(shape),
        verdict,
    })
}
