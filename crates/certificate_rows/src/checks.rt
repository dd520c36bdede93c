//! Certificates, checked.

use crate::Told;
use crate::captures::{capture_of, wheel_of};
use capture_core::{Capture, End};
use certificate_checker::{Answer, CheckFault, check};
use pair_certificate::{CertFault, CertLine, ReportFault, read_certificate, read_report};
use std::alloc::{AllocError, Global};
use wheel_types::{Report, Wheel};

/// What is told of an answer.
fn told_of_answer(alloc: Global, answer: Result<Answer, CheckFault>) -> Told {
    match answer {
        Ok(Answer::Yes) => Ok(Some(String::from_str(alloc, "yes")?)),
        Ok(Answer::No { instant, rule }) => { Ok(Some(format!(in alloc; "no {instant} {rule}")?)) }
        Err(CheckFault::TooManyPlaces) => Ok(Some(String::from_str(alloc, "too many")?)),
        Err(CheckFault::Memory) => Err(AllocError),
    }
}

/// The records of a report's text, if it is one.
fn report_of(alloc: Global, text: &str) -> Result<Option<Vec<Report>>, AllocError> {
    match read_report(alloc, text.as_bytes()) {
        Ok(report) => Ok(Some(report)),
        Err(ReportFault::BadLine { .. }) => Ok(None),
        Err(ReportFault::Memory) => Err(AllocError),
    }
}

/// The lines of a certificate's text, if it is one.
fn certificate_of(alloc: Global, text: &str) -> Result<Option<Vec<CertLine>>, AllocError> {
    match read_certificate(alloc, text.as_bytes()) {
        Ok(certificate) => Ok(Some(certificate)),
        Err(CertFault::BadLine { .. }) => Ok(None),
        Err(CertFault::Memory) => Err(AllocError),
    }
}

/// What is told of the certificate of a capture's report, if the texts are of a wheel, a capture without a fault, a report and a
/// certificate.
pub fn told_of_check(
    alloc: Global,
    wheel: &str,
    capture: &str,
    report: &str,
    certificate: &str,
) -> Told {
    let Some(wheel) = wheel_of(alloc, wheel)? else {
        return Ok(None);
    };
    let Some(report) = report_of(alloc, report)? else {
        return Ok(None);
    };
    let Some(certificate) = certificate_of(alloc, certificate)? else {
        return Ok(None);
    };
    let capture = capture_of(alloc, &wheel, capture)?;
    match capture.end {
        End::Clean => {
            told_of_answer(alloc, check(alloc, &wheel, &capture, &report, &certificate))
        }
        _ => Ok(None),
    }
}
