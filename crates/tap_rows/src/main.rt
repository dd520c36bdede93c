//! Taps on a board.
//!
//! A row is `TAPS | REPORTS`, words with a blank between two of them, and tells how many taps are live after each report, and then the
//! tails. The table says the words.
#![tactic(auto)]

mod wanting;

use rows::{Tells, check};
use std::alloc::{AllocError, Global};
use std::io;
use tap_board::{Board, FirstFix, StopAfter, Tally, Tap};
use wanting::Wanting;
use wheel_types::{Place, Report, Shape, Verdict};

/// A report with the verdict of a word: `lost`, `open`, or a number for an at.
fn report_of(word: &str) -> Report {
    let place = Place { j: 0, n1: 0, n2: 0 };
    let verdict = match word {
        "lost" => Verdict::Lost,
        "open" => Verdict::Open { a: place, b: place },
        _ => Verdict::At {
            j: word.parse::<u32>().unwrap_or(0),
            slot: 0,
        },
    };
    Report {
        index: 1,
        time: 0,
        shape: Shape::new(1),
        verdict,
    }
}

/// What a board tells of some reports: how many taps are live after each, and then the tails.
fn told_of(alloc: Global, board: Board, reports: &str) -> Result<String, AllocError> {
    let mut board = board;
    let mut said = String::new(alloc);
    for word in reports.split(' ') {
        if word == "-" {
            continue;
        }
        if board.tell(&report_of(word)).is_err() {
            said.push_str("memory ")?;
        }
        let live = board.live();
        let text = format!(in alloc; "{live} ")?;
        said.push_str(text.as_str())?;
    }
    match board.close() {
        Ok(text) => {
            for byte in text.iter() {
                said.push(char::from(*byte))?;
            }
        }
        Err(_) => said.push_str("memory")?,
    }
    Ok(said)
}

/// Tells of boards.
#[derive(Drop)]
struct Boards;

impl Tells for Boards {
    fn told(&self, alloc: Global, fields: &[String]) -> Result<Option<String>, AllocError> {
        let [asked, reports] = fields else {
            return Ok(None);
        };
        let mut taps: Vec<Box<dyn Tap>> = Vec::new(alloc);
        for word in asked.split(' ') {
            let number = word.trim_start_matches(char::is_alphabetic);
            let number = number.parse::<u64>().unwrap_or(0);
            if word == "tally" {
                taps.push(Box::new(alloc, Tally::new(alloc))?)?;
            } else if word == "first" {
                taps.push(Box::new(alloc, FirstFix::new(alloc))?)?;
            } else if word.starts_with("stop") {
                taps.push(Box::new(alloc, StopAfter::new(alloc, number))?)?;
            } else if word.starts_with("want") {
                taps.push(Box::new(alloc, Wanting::new(alloc, number))?)?;
            } else if word != "-" {
                return Ok(None);
            }
        }
        Ok(Some(told_of(alloc, Board::new(taps), reports)?))
    }
}

fn main(rt: HostRuntime) -> io::Result<()> {
    check(&rt, &Boards)
}
