//! Images of compiled wheels: the rules of their layout, their fields, and walks of their tables.
//!
//! `verify | IMAGE` tells the first rule that the bytes break, with the section and the entry, or `image`. `prefixes | IMAGE` tells
//! the same of the first 0, 1, 2, .. bytes, and `flips | MASK | IMAGE` of the image with each byte in turn changed by a mask: how many
//! of the changes are told to break a rule of a section, and after `/` the sum of their places, each times the entry's number and one.
//! `fields | IMAGE` tells what the image has in all: its counts; the slots of its crank edges; how many edges of the cams are kept; its
//! places; its cuts; the parts of its wheel. `state | NUMBER | IMAGE` tells of a state its phase, kind, members and the entries of its
//! row that are not 0, each after its column. `walk | INSTANTS | IMAGE` tells of each instant the verdict, the state after it, and how
//! many entries were read, and `report | INSTANTS | IMAGE` the lines of its report. `compile | SLOTS | PARTS | IMAGE` tells whether a wheel is compiled to these very bytes, and
//! `sums | SLOTS | PARTS | LIMIT` of the bytes that it is compiled to within a limit on its states their number, their sum, and the sum
//! of each one times its place and one; both tell why there are none. Slots and parts are those of the program wheel_rows.
//!
//! `audit | IMAGE` tells the states and places of an image that holds the table of its own wheel, or the first difference. `entries |
//! FROM | IMAGE` changes each entry of the rows, which begin at the byte FROM, to each other state in turn, and tells how many of the
//! changes keep the layout, how many of these are audited to mismatch at that very entry, and the length and sums of their lines: the
//! entry, the state that it leads to, and the first difference.
//!
//! An image is bytes in hexadecimal, in which `3*00` is `000000` and blanks say nothing. It may be followed by changes, as in
//! `verify | IMAGE | first=100 and=00 8=6500`: its first 100 bytes alone, then a byte 0 at the end, and then two other bytes from
//! byte 8 on. Instants are as `C+1- 15ms`, with a comma and a blank between two of them.
#![tactic(auto)]

mod audits;
mod bytes;
mod entries;
mod faults;
mod fields;
mod reports;
mod states;
mod walks;
mod wheels;

use audits::told_of_audit;
use bytes::image_of;
use entries::told_of_entries;
use faults::{text_of_fault, told_of_flips, told_of_prefixes};
use fields::told_of_fields;
use image_format::View;
use reports::told_of_report;
use rows::{Tells, check};
use states::told_of_state;
use std::alloc::{AllocError, Global};
use std::io;
use walks::told_of_walk;
use wheels::{told_of_compiled, told_of_sums};

/// What is told of a row, or `None` where it is none.
type Told = Result<Option<String>, AllocError>;

/// Tells what the calls over images answer.
#[derive(Drop)]
struct Images;

/// What is told of an image, where a kind asks for a text or a number beside it.
fn told_of_view(alloc: Global, kind: &str, asked: &str, view: &View<'_>) -> Told {
    match kind {
        "audit" => told_of_audit(alloc, view),
        "fields" => told_of_fields(alloc, view),
        "state" => told_of_state(alloc, view, asked),
        "walk" => told_of_walk(alloc, view, asked),
        "report" => told_of_report(alloc, view, asked),
        _ => Ok(None),
    }
}

/// What is told of bytes.
fn told_of_bytes(alloc: Global, kind: &str, asked: &str, bytes: Vec<u8>) -> Told {
    match kind {
        "prefixes" => Ok(Some(told_of_prefixes(alloc, bytes.as_slice())?)),
        "flips" => told_of_flips(alloc, asked, bytes),
        "entries" => told_of_entries(alloc, asked, bytes),
        _ => match View::verify(bytes.as_slice()) {
            Ok(_) if kind == "verify" => Ok(Some(text_of_fault(alloc, None)?)),
            Ok(view) => told_of_view(alloc, kind, asked, &view),
            Err(fault) => Ok(Some(text_of_fault(alloc, Some(fault))?)),
        },
    }
}

/// What is told of the bytes that the last fields of a row name.
fn told_of_image(alloc: Global, kind: &str, asked: &str, image: &[String]) -> Told {
    match image_of(alloc, image)? {
        Some(bytes) => told_of_bytes(alloc, kind, asked, bytes),
        None => Ok(None),
    }
}

impl Tells for Images {
    fn told(&self, alloc: Global, fields: &[String]) -> Told {
        let [kind, rest @ ..] = fields else {
            return Ok(None);
        };
        match (kind.as_str(), rest) {
            (kind @ ("verify" | "prefixes" | "audit" | "fields"), image) => {
                told_of_image(alloc, kind, "", image)
            }
            ("compile", [slots, parts, image @ ..]) => {
                told_of_compiled(alloc, slots, parts, image)
            }
            ("sums", [slots, parts, limit]) => told_of_sums(alloc, slots, parts, limit),
            (kind, [asked, image @ ..]) => told_of_image(alloc, kind, asked, image),
            _ => Ok(None),
        }
    }
}

fn main(rt: HostRuntime) -> io::Result<()> {
    check(&rt, &Images)
}
