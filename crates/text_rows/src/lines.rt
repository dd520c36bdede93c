//! Lines of reports.

use pair_certificate::report_line;
use std::alloc::{AllocError, Global};
use wheel_types::{Memory, Place, Report, Shape, Verdict};

/// The place of three numbers.
fn place_of(words: &[&str]) -> Option<Place> {
    let [j, n1, n2] = words else {
        return None;
    };
    let (j, n1, n2) = (j.parse().ok()?, n1.parse().ok()?, n2.parse().ok()?);
    Some(Place { j, n1, n2 })
}

/// The verdict of a word and numbers.
fn verdict_of(words: &[&str]) -> Option<Verdict> {
    let [kind, numbers @ ..] = words else {
        return None;
    };
    match (*kind, numbers) {
        ("lost", []) => Some(Verdict::Lost),
        ("at", [j, slot]) => {
            let (j, slot) = (j.parse().ok()?, slot.parse().ok()?);
            Some(Verdict::At { j, slot })
        }
        ("open", [a @ .., _, _, _]) => {
            let b = place_of(&numbers[numbers.len() - 3..])?;
            Some(Verdict::Open { a: place_of(a)?, b })
        }
        _ => None,
    }
}

/// The report of an index, a time, a shape's number and a verdict.
fn report_of(words: &[&str]) -> Option<Report> {
    let [index, time, number, verdict @ ..] = words else {
        return None;
    };
    let number = number.parse::<u32>().ok()?;
    if number < 1 || number > 26 {
        return None;
    }
    Some(Report {
        index: index.parse().ok()?,
        time: time.parse().ok()?,
        shape: Shape::new(number),
        verdict: verdict_of(verdict)?,
    })
}

/// The line of a report.
pub fn told_of_report(alloc: Global, row: &str) -> Result<Option<String>, AllocError> {
    let words: Vec<&str> = row.split(' ').collect(alloc)?;
    let Some(report) = report_of(&words) else {
        return Ok(None);
    };
    match report_line(alloc, &report) {
        Ok(line) => Ok(Some(String::from_utf8_lossy(alloc, &line)?)),
        Err(Memory) => Err(AllocError),
    }
}
