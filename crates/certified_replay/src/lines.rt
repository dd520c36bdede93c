//! The two lines of an instant: that of the report, and that of the exact certificate.
ghost use Rattle.std.specs.Prelude.{◌≡◌, ◌+◌, ◌-◌, ◌^◌, ◌<◌, ◌≤◌, ◌<ℤ◌, ◌∷◌, List as Items, reverse, Some, IfSome, IfOk, OnOk, unsigned_abs};
ghost use Rattle.wheel_types.specs.declared.instant.Instant.{Instant as Moment};
ghost use Rattle.wheel_types.specs.declared.verdict.Verdict.{Verdict as Judgement};
ghost use Rattle.wheel_types.specs.Verdicts.{IsRising};
ghost use Rattle.pair_certificate.specs.declared.line.CertLine.{CertLine as Record};
ghost use Rattle.pair_certificate.specs.Reports.{IsReportInRange};
ghost use Rattle.replay_core.specs.Sessions.{image_of, last_of, stepped_of};
ghost use Rattle.certificate_checker.specs.Exact.{AreExactLines};
ghost use Rattle.certificate_checker.specs.Reports.{report_of};
ghost use Rattle.certified_replay.specs.Walked.{wheel_of, HasWalked};
ghost use Rattle.certified_replay.specs.Lines.{AddsLines};

use image_audit::Sound;
use pair_certificate::{cert_line, report_line};
use replay_core::Session;
use std::alloc::Global;
use wheel_types::{Instant, Memory, Report, Verdict};

/// The line of a report, and the line of a certificate that stands beside it; each ends with a line feed. With them stands what the
/// report's line says.
#[derive(Drop)]
pub struct Lines {
    pub report: Vec<u8>,
    pub certificate: Vec<u8>,
    pub said: Report,
}

/// The record of an instant of this number with this verdict.
fn record_of(index: u64, instant: &Instant, verdict: Verdict) -> Report
    requires size { unsigned_abs instant.now.time ≤ 10 ^ 24 }
    ensures record { result ≡ report_of index instant.now verdict }
    ensures range { IsReportInRange result }
{
    Report {
        index,
        time: instant.time,
        shape: instant.shape(),
        verdict,
    }
}

/// Takes one more instant, and makes its line of the report and its line of the exact certificate. It asks a time above the last
/// instant's, at most 10^24 femtoseconds in size, and a sound image of the session's own bytes.
///
/// # Errors
/// Want of memory.
pub fn both_lines(
    alloc: Global,
    session: &mut Session<'_>,
    model: &Sound<'_>,
    instant: &Instant,
) -> Result<Lines, Memory>
    requires later { IfSome (last_of session.old) (λ t. t <ℤ instant.now.time) }
    requires few { stepped_of session.old < 2 ^ 64 - 1 }
    requires size { unsigned_abs instant.now.time ≤ 10 ^ 24 }
    requires model { model.now.view.bytes.now ≡ image_of session.old }
    ensures last { OnOk result (last_of session.new ≡ Some instant.now.time) }
    ensures stepped { OnOk result (stepped_of session.new ≡ stepped_of session.old + 1) }
    ensures image { image_of session.new ≡ image_of session.old }
    ensures adds { IfOk result (λ lines. (past : Items Moment) (verdicts : Items Judgement) (certificate : Items Record) (window : Items Moment)
        → HasWalked session.old past verdicts → IsRising (reverse (instant.now ∷ past)) → AreExactLines (wheel_of session.old) past verdicts certificate window
        → AddsLines (wheel_of session.old) session.new instant.now past verdicts certificate lines) }
{
    let Report { index, verdict, .. } = session.step(instant);
    let line = session.cover(alloc, model)?;
    let said = record_of(index, instant, verdict);
    let report = report_line(alloc, &said)?;
    let certificate = cert_line(alloc, &line)?;
    Ok(Lines {
        report,
        certificate,
        said,
    })
}
