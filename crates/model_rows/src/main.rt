//! Wheel files, tables of C sources, and what wheels are found to hold: edges, places, legal steps and verdicts.
//!
//! A row's first field is its kind. In these kinds the fields `LINES` are the lines of a wheel file, or names for several:
//! `wheel | LINES` tells its degrees and slots, and then its polarities, phasings and limits, or its fault; `size | LINES` how many
//! slots it has; `printed | LINES` the file of the wheel as it is printed; `back | LINES` whether that file is read back as the wheel;
//! `edges | LINES` its edges; `places | LINES` its places; `count | LINES` how many these are; `stands | LINES | PLACE` whether it stands
//! at a place; `verdicts | LINES | INSTANTS` what the instants prove, each in turn; `legal | LINES | PLACE | INSTANT` where the step of
//! a place ends at a first instant. In all of them
//! but the first `{3 1, 0, }` stands for `1, 0, 1, 0, 1, 0, `.
//!
//! `bytes | TEXT` tells the same as `wheel` of a file of this text, `table NAME | SOURCE` the slots of a C source's table, and
//! `cuts NAME | SOURCE` of its fronts, how many in turn are told alike; `line | NUMBERS` is the line of a wheel file that lists slots.
//! In these `�` stands for the byte 255, `€` for the byte 128, which no text has, and `␍` for a return.
//!
//! A place is `j:n1:n2`, and an instant is its edges with its time, as `C+1- 15ms`, in milliseconds or in femtoseconds, `fs`.
#![tactic(auto)]

mod edges;
mod model;
mod places;
mod tables;
mod texts;
mod verdicts;
mod wheels;

use edges::told_of_edges;
use places::{told_of_count, told_of_places, told_of_standing};
use rows::{Tells, check};
use std::alloc::{AllocError, Global};
use std::io;
use tables::{told_of_cuts, told_of_line, told_of_table};
use verdicts::{told_of_legal, told_of_verdicts};
use wheels::{told_of_back, told_of_bytes, told_of_file, told_of_print, told_of_size};

/// What is told of a row, or `None` where it is none.
type Told = Result<Option<String>, AllocError>;

/// Tells what the calls over wheels and tables answer.
#[derive(Drop)]
struct Models;

impl Tells for Models {
    fn told(&self, alloc: Global, fields: &[String]) -> Told {
        match fields {
            [kind, asked @ ..] => told_of_kind(alloc, kind, asked),
            [] => Ok(None),
        }
    }
}

/// What is told of the fields after a kind.
fn told_of_kind(alloc: Global, kind: &str, asked: &[String]) -> Told {
    match (kind, asked) {
        ("wheel", lines) => told_of_file(alloc, lines),
        ("size", lines) => told_of_size(alloc, lines),
        ("printed", lines) => told_of_print(alloc, lines),
        ("back", lines) => told_of_back(alloc, lines),
        ("edges", lines) => told_of_edges(alloc, lines),
        ("places", lines) => told_of_places(alloc, lines),
        ("count", lines) => told_of_count(alloc, lines),
        ("stands", [lines @ .., place]) => told_of_standing(alloc, lines, place),
        ("verdicts", [lines @ .., instants]) => told_of_verdicts(alloc, lines, instants),
        ("legal", [lines @ .., from, instant]) => told_of_legal(alloc, lines, from, instant),
        ("bytes", [text]) => told_of_bytes(alloc, text),
        ("line", [numbers]) => told_of_line(alloc, numbers),
        (kind, [source]) => told_of_source(alloc, kind, source),
        _ => Ok(None),
    }
}

/// What is told of a C source: of a table of it, or of that table in the source's fronts.
fn told_of_source(alloc: Global, kind: &str, source: &str) -> Told {
    if let Some(name) = kind.strip_prefix("table ") {
        return told_of_table(alloc, name, source);
    }
    match kind.strip_prefix("cuts ") {
        Some(name) => told_of_cuts(alloc, name, source),
        None => Ok(None),
    }
}

fn main(rt: HostRuntime) -> io::Result<()> {
    check(&rt, &Models)
}
