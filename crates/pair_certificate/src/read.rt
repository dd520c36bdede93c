//! Reading reports.
ghost use Rattle.std.specs.Prelude.{◌≡◌, ◌∷◌, ◌<◌, ◌≤◌, ℕ, length, take, drop, IfOk, IfErr, MatchOption};
ghost use Rattle.wheel_types.specs.declared.verdict.Report.{Report as Line};
ghost use Rattle.pair_certificate.specs.Lines.{lines_of};
ghost use Rattle.pair_certificate.specs.Readings.{IsReportLine, MeansReports, IsFirstBadLine};

use crate::first::report_at;
use crate::report::report_line;
use std::alloc::{AllocFailed, Global};
use wheel_types::{Memory, Report};

/// Why a report is not read.
#[derive(Clone, Copy, Debug, PartialEq, Eq)]
pub enum ReportFault {
    /// The line of this number, from 1, is the first that is not one of a report.
    BadLine { at: u64 },
    /// Want of memory.
    Memory,
}

impl From<Memory> for ReportFault {
    ghost use Rattle.pair_certificate.specs.declared.read.ReportFault.TheVariants.{Memory as WantsMemory};

    ghost from_gives = { λ _ fault. fault ≡ WantsMemory };

    fn from(_: Memory) -> Self {
        ReportFault::Memory
    }
}

impl<T: Drop> From<AllocFailed<T>> for ReportFault {
    ghost use Rattle.pair_certificate.specs.declared.read.ReportFault.TheVariants.{Memory as WantsMemory};

    ghost from_gives = { λ _ fault. fault ≡ WantsMemory };

    fn from(_: AllocFailed<T>) -> Self {
        ReportFault::Memory
    }
}

/// The record of a line, if it is one of a report: the line is printed again and compared.
fn read_line(alloc: Global, line: &[u8]) -> Result<Option<Report>, Memory>
    ensures { IfOk result (λ report. MatchOption report ((r : Line) → IsReportLine line.now r → ⊥) (λ r. IsReportLine line.now r)) }
{
    let Some(report) = report_at(line) else {
        return Ok(None);
    };
    let text = report_line(alloc, &report)?;
    if text.as_slice() == line {
        Ok(Some(report))
    } else {
        Ok(None)
    }
}

/// The place after the first line of a text.
pub fn line_end(bytes: &[u8]) -> usize
    requires { 0 < length bytes.now }
    ensures some { 0 < result }
    ensures within { result ≤ length bytes.now }
    ensures line { lines_of bytes.now ≡ take result bytes.now ∷ lines_of (drop result bytes.now) }
{
    for (k, byte) in bytes.iter().enumerate() {
        if *byte == b'\n' {
            return k + 1;
        }
    }
    bytes.len()
}

/// The report that a text means: its lines are exactly those that `report_line` prints, with an index of 64 bits, a time of at
/// most 10^24 femtoseconds in size, and numbers of 32 bits. No line at all is an empty report.
///
/// # Errors
/// `BadLine` with the first line that is none of a report, counted from 1; want of memory.
pub fn read_report(alloc: Global, bytes: &[u8]) -> Result<Vec<Report>, ReportFault>
    ensures value { IfOk result (λ reports. MeansReports bytes.now reports.items) }
    ensures bad { IfErr result (λ fault. (at : ℕ) → fault ≡ ReportFault.BadLine at → IsFirstBadLine IsReportLine bytes.now at) }
{
    let mut reports = Vec::new(alloc);
    let mut rest = bytes;
    while !rest.is_empty() {
        let end = line_end(rest);
        let Some(report) = read_line(alloc, &rest[..end])? else {
            return Err(ReportFault::BadLine {
                at: reports.len() as u64 + 1,
            });
        };
        reports.push(report)?;
        rest = &rest[end..];
    }
    Ok(reports)
}
