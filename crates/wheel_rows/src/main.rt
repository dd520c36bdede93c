//! Wheels and the limits of their motion.
//!
//! A row is `build`, `cuts`, `classes` or `kept | SLOTS | PARTS`, or one of `times | SLOTS | PARTS | COUNT`, `speed | SLOTS | PARTS |
//! COUNT TIME`, `ratio | SLOTS | PARTS | COUNT TIME COUNT TIME` and `size | SLOTS | PARTS | LIMIT`, the sizes of the wheel's set
//! automaton within a limit on its states. Slots are numbers with blanks between them, in which `3*10` is `1 0 1 0 1 0`, or
//! `alternating` and how many. Parts are such as `degrees=720`, `rpm=60,6000`, `cam1=rising` or `cam1=0,5000`, its early and late;
//! those that a row does not name are those of a turn of 360 degrees, with both edges of the cams.
#![tactic(auto)]

mod bounds;
mod cuts;
mod sizes;

use bounds::{ratio, speed, times};
use cuts::told_of_cuts;
use row_texts::{numbers_of, parts_of};
use rows::{Tells, check};
use sizes::told_of_size;
use std::alloc::{AllocError, Global};
use std::io;
use wheel_types::{Wheel, WheelParts};

/// Tells of wheels.
#[derive(Drop)]
struct Wheels;

/// What is told of the wheel of some parts.
fn told_of_parts(
    alloc: Global,
    kind: &str,
    parts: WheelParts,
    numbers: &[u64],
) -> Result<Option<String>, AllocError> {
    let wheel = match Wheel::build(parts) {
        Ok(wheel) => wheel,
        Err(fault) => return Ok(Some(format!(in alloc; "{fault:?}")?)),
    };
    let told = match kind {
        "build" => format!(in alloc; "a wheel")?,
        "times" => format!(in alloc; "{:?}", times(&wheel, numbers))?,
        "speed" => format!(in alloc; "{:?}", speed(&wheel, numbers))?,
        "ratio" => format!(in alloc; "{:?}", ratio(&wheel, numbers))?,
        "size" => return told_of_size(alloc, &wheel, numbers),
        _ => return told_of_cuts(alloc, kind, &wheel),
    };
    Ok(Some(told))
}

impl Tells for Wheels {
    fn told(&self, alloc: Global, fields: &[String]) -> Result<Option<String>, AllocError> {
        let [kind, slots, parts, rest @ ..] = fields else {
            return Ok(None);
        };
        let numbers = match rest {
            [numbers] => numbers_of(alloc, numbers)?,
            _ => Vec::new(alloc),
        };
        match parts_of(alloc, slots, parts)? {
            Some(parts) => told_of_parts(alloc, kind, parts, &numbers),
            None => Ok(None),
        }
    }
}

fn main(rt: HostRuntime) -> io::Result<()> {
    check(&rt, &Wheels)
}
