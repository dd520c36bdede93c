//! Captures in both forms, and the headers of value change dumps: what is read of them.
//!
//! Rows are of these kinds. Of a capture its instants are told, each with its time and its edges, and how it ends.
//!
//! - `time | TEXT`: the time of a row of CSV, where `~` stands for 5,000 zeros: its femtoseconds, or the fault of row 3.
//! - `csv | NAMES | WATCH | PARTS`: a file in CSV.
//! - `vcd | NAMES | WATCH | PARTS`: a dump that is fed in two pieces, of which the second is the last part.
//! - `bytes | NAMES | WATCH | PARTS`: a dump that is fed byte by byte.
//! - `cuts | NAMES | WATCH | PARTS`: a dump in two pieces, cut everywhere: the number of cuts, and what is told at each.
//! - `fronts | NAMES | WATCH | PARTS`: a dump that ends early, fed byte by byte: the lengths at which it is clean, where it is cut at all
//!   others.
//! - `again | NAMES | WATCH | PARTS`: a dump to which more is fed after its end: the answers to it and to its end, each with the instants
//!   that wait then, and whether more of both is answered the same.
//! - `levels | WATCH | STAMPS`: levels that are given at stamps, each as a letter of its channel and 0 or 1.
//! - `header | NAMES | WATCH | SECTIONS`: sections of a dump's header without their ends: what is kept of them, or what does not fit.
//! - `long csv | NAMES | WATCH | PARTS` and `long vcd | NAMES | WATCH | PARTS`: a long file in CSV, and a long dump that is fed 65,536
//!   bytes at a time: the number of instants, the last of them, and how it ends.
//!
//! Names are those of the crank, the cams and the time, with a comma between two. A watch has a sign for the crank and each cam: `+` and
//! `-` for rising and falling edges, `*` for both, `.` for none. Parts are joined, and `\xff` in them stands for the byte 255. A part
//! `9 × TEXT` is nine copies of the text, in which `%` stands for the copy's number, from 0.
#![tactic(auto)]

mod again;
mod bytes;
mod cuts;
mod dumps;
mod edges;
mod levels;
mod long;
mod pieces;
mod sections;
mod sheets;
mod watched;

use again::told_again;
use bytes::bytes_of;
use cuts::{told_of_cuts, told_of_fronts};
use dumps::{told_by_bytes, told_of_parts};
use levels::told_of_levels;
use long::{told_of_long_dump, told_of_long_sheet};
use rows::{Tells, check};
use sections::told_of_sections;
use sheets::{told_of_sheet, told_of_time};
use std::alloc::{AllocError, Global};
use std::io;
use watched::{Watched, watch_of, watched_of};

/// Tells what captures and headers hold.
#[derive(Drop)]
struct Captures;

impl Tells for Captures {
    fn told(&self, alloc: Global, fields: &[String]) -> Result<Option<String>, AllocError> {
        match fields {
            [kind, text] if kind.as_str() == "time" => Ok(Some(told_of_time(alloc, text)?)),
            [kind, watch, stamps @ ..] if kind.as_str() == "levels" => {
                let Some(watch) = watch_of(watch.as_bytes()) else {
                    return Ok(None);
                };
                Ok(Some(told_of_levels(alloc, watch, stamps)?))
            }
            [kind, names, watch, parts @ ..] => {
                let Some(watched) = watched_of(alloc, names, watch)? else {
                    return Ok(None);
                };
                told_of_capture(alloc, kind, &watched, parts)
            }
            _ => Ok(None),
        }
    }
}

/// What is told of a capture of these parts.
fn told_of_capture(
    alloc: Global,
    kind: &str,
    watched: &Watched,
    parts: &[String],
) -> Result<Option<String>, AllocError> {
    if kind == "header" {
        return Ok(Some(told_of_sections(alloc, watched, parts)?));
    }
    let whole = bytes_of(alloc, parts)?;
    let told = match kind {
        "csv" => told_of_sheet(alloc, watched, &whole)?,
        "vcd" => told_of_parts(alloc, watched, parts)?,
        "bytes" => told_by_bytes(alloc, watched, &whole)?,
        "cuts" => told_of_cuts(alloc, watched, &whole)?,
        "fronts" => told_of_fronts(alloc, watched, &whole)?,
        "again" => told_again(alloc, watched, &whole)?,
        "long csv" => told_of_long_sheet(alloc, watched, &whole)?,
        "long vcd" => told_of_long_dump(alloc, watched, &whole)?,
        _ => return Ok(None),
    };
    Ok(Some(told))
}

fn main(rt: HostRuntime) -> io::Result<()> {
    check(&rt, &Captures)
}
