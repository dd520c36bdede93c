//! Runs of the top call: over files in memory, where calls may fail, and over the examples.
//!
//! Fields of a row are `replay OPTIONS | WHEEL | CAPTURE`; or `prefixes | WHEEL | CAPTURE` for all that the capture begins with; or
//! `WORDS | FAILING | WHEEL | CAPTURE` where a call of the shelf, or a write on out or on notes, fails, or out is a stream that has room
//! for so many bytes; or `WORDS | FAILING | WHEEL | CAPTURE | REPORT | CERT` over the files of a check; or `WORDS | REPORT` over the files
//! beside the program, with the file of what out gets; or `WORDS | FAILING | WHEEL | IMAGE | WANTED` where words make the file `image`, with
//! what it has before, and the file beside the program that has the wheel's image. A blank stands between two words, `~` for a blank in a word, and `�` in a file for
//! the byte 255, which no text has. `long | WHEEL | CAPTURE | 9 × ROWS` is a replay of a capture that goes on with nine copies of rows,
//! in which `%` stands for the copy's number from 0: how many lines the report has, and the last of them. `certified | WORDS | FAILING |
//! WHEEL | CAPTURE` is a replay that makes the file `cert`: what out got, what that file has, and how it ended. `taps | TAPS | WORDS |
//! FAILING | WHEEL | CAPTURE` is a run with taps, where a call fails or notes is a stream that has room for so many bytes: `tally`, `first`,
//! `stop N`, `memory N`, whose take wants memory from its report N on, and `close memory`, whose finish does; a comma stands between two.
//! `table | WORDS | FAILING |
//! IMAGE | CHANGES | CAPTURE` are words over the file `image`, which has what the file beside the program has, but for changes such as
//! `956=3` (a byte), `first=100` (no more bytes) and `more=0` (one byte more), and over the file `capture`. `stimulus | WHEEL | FORM SEED
//! GAPS` makes a stimulus and replays it: how many lines the report has, how many are lost, and how it ended.
#![tactic(auto)]

mod certificates;
mod checks;
mod examples;
mod images;
mod long;
mod memory;
mod prefixes;
mod stimuli;
mod streams;
mod tables;
mod taps;
mod wanting;

use certificates::told_of_certified;
use checks::told_of_check;
use examples::told_of_files;
use images::told_of_image;
use long::told_of_long;
use memory::{bytes_of, told_of_replay, told_of_words};
use prefixes::told_of_prefixes;
use rows::{Tells, check};
use std::alloc::{AllocError, Global};
use std::io;
use stimuli::told_of_stimulus;
use streams::told_of_stream;
use tables::told_of_table;
use taps::told_of_taps;

/// Tells what a run leaves: what out got, the status, and what notes got.
#[derive(Drop)]
struct Runs<'a> {
    rt: &'a HostRuntime,
}

impl Tells for Runs<'_> {
    fn told(&self, alloc: Global, fields: &[String]) -> Result<Option<String>, AllocError> {
        match fields {
            [words, report] => told_of_files(self.rt, words, report),
            [kind, wheel, asked] if kind.as_str() == "stimulus" => {
                told_of_stimulus(alloc, wheel, asked)
            }
            [kind, wheel, capture] => {
                let files = (bytes_of(alloc, wheel)?, bytes_of(alloc, capture)?);
                told_of_kind(alloc, kind, (&files.0, &files.1))
            }
            [kind, wheel, front, copies] if kind.as_str() == "long" => {
                told_of_long(alloc, wheel, front, copies)
            }
            [kind, words, failing, wheel, capture] if kind.as_str() == "certified" => {
                let files = (bytes_of(alloc, wheel)?, bytes_of(alloc, capture)?);
                told_of_certified(alloc, words, failing, (&files.0, &files.1))
            }
            [words, failing, wheel, capture] => {
                let files = (bytes_of(alloc, wheel)?, bytes_of(alloc, capture)?);
                match failing.strip_prefix("room ") {
                    Some(room) => told_of_stream(alloc, words, room, (&files.0, &files.1)),
                    None => told_of_words(alloc, words, failing, (&files.0, &files.1)),
                }
            }
            [words, failing, wheel, before, wanted] => {
                told_of_image(self.rt, words, failing, [wheel, before, wanted])
            }
            [kind, taps, words, failing, wheel, capture] if kind.as_str() == "taps" => {
                let files = (bytes_of(alloc, wheel)?, bytes_of(alloc, capture)?);
                told_of_taps(alloc, taps, words, failing, (&files.0, &files.1))
            }
            [kind, words, failing, image, changes, capture] if kind.as_str() == "table" => {
                told_of_table(self.rt, words, failing, [image, changes, capture])
            }
            [words, failing, wheel, capture, report, cert] => {
                told_of_check(alloc, words, failing, [wheel, capture, report, cert])
            }
            _ => Ok(None),
        }
    }
}

/// What is told of a replay, or of replays of all fronts of the capture.
fn told_of_kind(
    alloc: Global,
    kind: &str,
    files: (&[u8], &[u8]),
) -> Result<Option<String>, AllocError> {
    if let Some(options) = kind.strip_prefix("replay") {
        return told_of_replay(alloc, options, files);
    }
    match kind {
        "prefixes" => told_of_prefixes(alloc, files.0, files.1),
        _ => Ok(None),
    }
}

fn main(rt: HostRuntime) -> io::Result<()> {
    check(&rt, &Runs { rt: &rt })
}
