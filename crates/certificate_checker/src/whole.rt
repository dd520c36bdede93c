//! Checking a certificate.
ghost use Rattle.std.specs.Prelude.{◌≡◌, ◌↔◌, ◌^◌, [], None, IsTrue, IfOk, IfErr, OnOk};
ghost use Rattle.wheel_types.specs.Verdicts.{IsRising, AreWithin};
ghost use Rattle.cam_ranges.specs.Places.{HasTooMany};
ghost use Rattle.capture_core.specs.declared.capture.End.{End as Ending};
ghost use Rattle.plain_motion.specs.Sets.{last_of, wheel_of};
ghost use Rattle.certificate_checker.specs.Answers.{AreAsMany, IsAnswer, IsLeastCount};
ghost use Rattle.certificate_checker.specs.Checking.{IsBasisOf};
ghost use Rattle.certificate_checker.specs.Laws.{AreOwn};
ghost use Rattle.certificate_checker.specs.Stages.{StandsIn, IsAnswerFrom};

use crate::basis::Basis;
use crate::fault::{CheckFault, of_places};
use crate::instant::{check_instant, is_first, kept_cover};
use crate::rule::{Answer, Rule};
use cam_ranges::all_places;
use capture_core::Capture;
use edge_angles::find_edges;
use pair_certificate::CertLine;
use plain_motion::PlainSet;
use std::alloc::Global;
use wheel_types::{Instant, List, Memory, Place, Report, Wheel};

impl Basis {
    /// What a checker keeps of a wheel.
    fn of(alloc: Global, wheel: &Wheel) -> Result<Basis, CheckFault>
        ensures basis { IfOk result (λ basis. IsBasisOf wheel.now.parts basis) }
        ensures few { OnOk result (¬ HasTooMany wheel.now.parts) }
        ensures many { IfErr result (λ fault. fault ≡ CheckFault.TooManyPlaces → HasTooMany wheel.now.parts) }
    {
        let edges = find_edges(alloc, wheel)?;
        let places = match all_places(alloc, wheel, &edges) {
            Ok(places) => places,
            Err(fault) => return Err(of_places(fault)),
        };
        let fresh = match PlainSet::new(alloc, wheel, &edges) {
            Ok(fresh) => fresh,
            Err(fault) => return Err(of_places(fault)),
        };
        let places = List::from_vec(places);
        Ok(Basis {
            edges,
            places,
            fresh,
        })
    }
}

/// What is to be answered for instants with as many lines of a report and of a certificate.
fn check_all(
    wheel: &Wheel,
    basis: &Basis,
    set: &mut PlainSet,
    instants: &[Instant],
    reports: &[Report],
    lines: &[CertLine],
) -> Result<Answer, Memory>
    requires basis { IsBasisOf wheel.now.parts basis.now }
    requires stands { StandsIn wheel.now.parts set.old None [] [] }
    requires fresh { last_of set.old ≡ None }
    requires many { AreAsMany instants.now reports.now lines.now }
    requires rising { IsRising instants.now }
    requires sizes { AreWithin (10 ^ 24) instants.now }
    ensures { IfOk result (λ answer. IsAnswerFrom wheel.now.parts 1 [] [] instants.now reports.now lines.now answer) }
{
    let mut kept: Option<&[Place]> = None;
    for (k, instant) in instants.iter().enumerate() {
        let report = &reports[k];
        let line = &lines[k];
        let index = k as u64 + 1;
        match check_instant(wheel, basis, set, kept, index, instant, report, line)? {
            Some(rule) => {
                return Ok(Answer::No {
                    instant: index,
                    rule: rule.number(),
                });
            }
            None => kept = kept_cover(is_first(kept), report, line),
        }
    }
    Ok(Answer::Yes)
}

/// Whether a certificate is valid for the report of a capture's instants, or the first instant with a broken rule and its first
/// one. It asks a capture with a clean end, whose instants have rising times of at most 10^24 femtoseconds in size.
///
/// # Errors
/// `TooManyPlaces` where the wheel has more than 16,384 places; want of memory.
pub fn check(
    alloc: Global,
    wheel: &Wheel,
    capture: &Capture,
    report: &[Report],
    cert: &[CertLine],
) -> Result<Answer, CheckFault>
    requires clean { capture.now.end ≡ Ending.Clean }
    requires rising { IsRising capture.now.instants }
    requires sizes { AreWithin (10 ^ 24) capture.now.instants }
    ensures answer { IfOk result (λ answer. IsAnswer wheel.now.parts capture.now.instants report.now cert.now answer) }
    ensures own { IfOk result (λ answer. AreOwn wheel.now.parts capture.now.instants report.now cert.now → answer ≡ Answer.Yes) }
    ensures few { OnOk result (¬ HasTooMany wheel.now.parts) }
    ensures many { IfErr result (λ fault. fault ≡ CheckFault.TooManyPlaces → HasTooMany wheel.now.parts) }
{
    let basis = Basis::of(alloc, wheel)?;
    let instants = capture.instants.as_slice();
    if !are_as_many(instants, report, cert) {
        let least = least_count(instants, report, cert);
        return Ok(Answer::No {
            instant: least as u64 + 1,
            rule: Rule::Counts.number(),
        });
    }
    let mut set = match PlainSet::new(alloc, wheel, &basis.edges) {
        Ok(set) => set,
        Err(fault) => return Err(of_places(fault)),
    };
    let answer = check_all(wheel, &basis, &mut set, instants, report, cert)?;
    Ok(answer)
}

/// Whether there are equally many instants and lines.
fn are_as_many(instants: &[Instant], report: &[Report], cert: &[CertLine]) -> bool
    ensures { IsTrue result ↔ AreAsMany instants.now report.now cert.now }
{
    report.len() == instants.len() && cert.len() == instants.len()
}

/// The least of the three counts.
fn least_count(instants: &[Instant], report: &[Report], cert: &[CertLine]) -> usize
    ensures { IsLeastCount instants.now report.now cert.now result }
{
    let least = if report.len() < instants.len() {
        report.len()
    } else {
        instants.len()
    };
    if cert.len() < least {
        cert.len()
    } else {
        least
    }
}
