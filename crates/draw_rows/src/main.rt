//! Numbers drawn from the generators of stimuli, and stimuli.
//!
//! A row's first field is its kind. `draws | SEED STREAM | RANGES`, ranges `LOW-HIGH` with a blank between two of them, tells the numbers
//! drawn from them one after the other. `instants | SLOTS | PARTS | SEED GAPS` tells the instants of a stimulus, each as its edges with its
//! time, as `C+1- 15fs`, or why there is none. `totals | SLOTS | PARTS | SEED GAPS` tells how many instants and edges it has, the sum of the
//! instants' times, the sum of these times by their places from 1, both modulo 2^64, and the last instant.
#![tactic(auto)]

mod drawn;
mod stimuli;

use drawn::told_of_draws;
use rows::{Tells, check};
use std::alloc::{AllocError, Global};
use std::io;
use stimuli::{told_of_instants, told_of_totals};

/// What is told of a row, or `None` where it is none.
type Told = Result<Option<String>, AllocError>;

/// Tells of draws and of stimuli.
#[derive(Drop)]
struct Draws;

impl Tells for Draws {
    fn told(&self, alloc: Global, fields: &[String]) -> Told {
        match fields {
            [kind, asked @ ..] => told_of_kind(alloc, kind, asked),
            [] => Ok(None),
        }
    }
}

/// What is told of the fields after a kind.
fn told_of_kind(alloc: Global, kind: &str, asked: &[String]) -> Told {
    match (kind, asked) {
        ("draws", [from, ranges]) => told_of_draws(alloc, from, ranges),
        ("instants", [slots, parts, of]) => told_of_instants(alloc, slots, parts, of),
        ("totals", [slots, parts, of]) => told_of_totals(alloc, slots, parts, of),
        _ => Ok(None),
    }
}

fn main(rt: HostRuntime) -> io::Result<()> {
    check(&rt, &Draws)
}
