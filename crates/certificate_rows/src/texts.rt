//! Texts of reports and certificates.

use crate::Told;
use pair_certificate::{
    CertFault, CertLine, ReportFault, cert_line, read_certificate, read_report, report_line,
};
use std::alloc::{AllocError, Global};
use wheel_types::{Memory, Report};

/// Puts a line at the end of a text.
fn push_line(
    alloc: Global,
    text: &mut String,
    line: Result<Vec<u8>, Memory>,
) -> Result<(), AllocError> {
    match line {
        Ok(line) => text.push_str(&String::from_utf8_lossy(alloc, &line)?),
        Err(Memory) => Err(AllocError),
    }
}

/// What is told of printed lines.
fn told_of_lines(alloc: Global, text: String) -> Told {
    if text.is_empty() {
        return Ok(Some(String::from_str(alloc, "no line")?));
    }
    Ok(Some(text))
}

/// What is told of the records of a report: its lines.
fn told_of_records(alloc: Global, report: &[Report]) -> Told {
    let mut text = String::new(alloc);
    for record in report {
        push_line(alloc, &mut text, report_line(alloc, record))?;
    }
    told_of_lines(alloc, text)
}

/// What is told of the records of a certificate: its lines.
pub fn told_of_cert_lines(alloc: Global, certificate: &[CertLine]) -> Told {
    let mut text = String::new(alloc);
    for line in certificate {
        push_line(alloc, &mut text, cert_line(alloc, line))?;
    }
    told_of_lines(alloc, text)
}

/// What is told of a report's text.
pub fn told_of_report(alloc: Global, text: &str) -> Told {
    match read_report(alloc, text.as_bytes()) {
        Ok(report) => told_of_records(alloc, &report),
        Err(ReportFault::BadLine { at }) => Ok(Some(format!(in alloc; "bad line {at}")?)),
        Err(ReportFault::Memory) => Err(AllocError),
    }
}

/// What is told of a certificate's text.
pub fn told_of_certificate(alloc: Global, text: &str) -> Told {
    match read_certificate(alloc, text.as_bytes()) {
        Ok(certificate) => told_of_cert_lines(alloc, &certificate),
        Err(CertFault::BadLine { at }) => Ok(Some(format!(in alloc; "bad line {at}")?)),
        Err(CertFault::Memory) => Err(AllocError),
    }
}
