//! Reports and certificates: their texts read and printed again, certificates made of what instants prove, and certificates checked.
//!
//! A row's first field is its kind. `report | TEXT` tells the lines of a report's text as they are printed again, or its first bad
//! line, and `certificate | TEXT` the same of a certificate's. `certify | WHEEL | CAPTURE` tells the certificate that is made of a
//! capture, and `check | WHEEL | CAPTURE | REPORT | CERTIFICATE` whether a certificate is valid, or the first instant with a broken
//! rule and that rule. WHEEL is the text of a wheel file, and CAPTURE one of a capture in CSV, of which a cam is watched where the
//! text names it.
#![tactic(auto)]

mod captures;
mod certificates;
mod checks;
mod texts;

use certificates::told_of_capture;
use checks::told_of_check;
use rows::{Tells, check};
use std::alloc::{AllocError, Global};
use std::io;
use texts::{told_of_certificate, told_of_report};

/// What is told of a row, or `None` where it is none.
type Told = Result<Option<String>, AllocError>;

/// Tells what the calls over reports and certificates answer.
#[derive(Drop)]
struct Lines;

impl Tells for Lines {
    fn told(&self, alloc: Global, fields: &[String]) -> Told {
        match fields {
            [kind, asked @ ..] => told_of_kind(alloc, kind, asked),
            [] => Ok(None),
        }
    }
}

/// What is told of the fields after a kind.
fn told_of_kind(alloc: Global, kind: &str, asked: &[String]) -> Told {
    match (kind, asked) {
        ("report", [text]) => told_of_report(alloc, text),
        ("certificate", [text]) => told_of_certificate(alloc, text),
        ("certify", [wheel, capture]) => told_of_capture(alloc, wheel, capture),
        ("check", [wheel, capture, report, certificate]) => {
            told_of_check(alloc, wheel, capture, report, certificate)
        }
        _ => Ok(None),
    }
}

fn main(rt: HostRuntime) -> io::Result<()> {
    check(&rt, &Lines)
}
