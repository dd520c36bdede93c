//! Stimuli.

use crate::drawn::pair_of;
use row_texts::parts_of;
use std::alloc::{AllocError, Global};
use std::fmt::Write;
use stimulus::{Stimulus, make};
use wheel_types::{Instant, Pol, Wheel};

/// How many gaps a stimulus may have.
const MOST_GAPS: u64 = 1_000_000;

/// A stimulus, or what is told where there is none.
enum Told {
    Whole(Stimulus),
    Refused(String),
    NoRow,
}

/// The stimulus that fields ask for: a wheel's slots and parts, a seed and a number of gaps.
fn stimulus_of(alloc: Global, slots: &str, parts: &str, of: &str) -> Result<Told, AllocError> {
    let Some((seed, gaps)) = pair_of(of, ' ') else {
        return Ok(Told::NoRow);
    };
    let Some(parts) = parts_of(alloc, slots, parts)? else {
        return Ok(Told::NoRow);
    };
    let Ok(wheel) = Wheel::build(parts) else {
        return Ok(Told::NoRow);
    };
    if gaps < 1 || gaps > MOST_GAPS {
        return Ok(Told::NoRow);
    }
    match make(alloc, &wheel, seed, gaps as u32) {
        Ok(stimulus) => Ok(Told::Whole(stimulus)),
        Err(fault) => Ok(Told::Refused(format!(in alloc; "{fault}")?)),
    }
}

/// Adds a channel's mark and the sign of its edge, if there is one.
fn add_edge(told: &mut String, mark: char, edge: Option<Pol>) -> Result<(), AllocError> {
    match edge {
        None => Ok(()),
        Some(Pol::Rise) => write!(told, "{mark}+"),
        Some(Pol::Fall) => write!(told, "{mark}-"),
    }
}

/// Adds an instant: its edges, and its time.
fn add_instant(told: &mut String, instant: Instant) -> Result<(), AllocError> {
    add_edge(told, 'C', instant.crank)?;
    add_edge(told, '1', instant.cam1)?;
    add_edge(told, '2', instant.cam2)?;
    write!(told, " {}fs", instant.time)
}

/// What is told of all instants.
pub fn told_of_instants(
    alloc: Global,
    slots: &str,
    parts: &str,
    of: &str,
) -> Result<Option<String>, AllocError> {
    let stimulus = match stimulus_of(alloc, slots, parts, of)? {
        Told::Whole(stimulus) => stimulus,
        Told::Refused(why) => return Ok(Some(why)),
        Told::NoRow => return Ok(None),
    };
    let mut told = String::new(alloc);
    for instant in stimulus.instants() {
        if !told.is_empty() {
            told.push_str(", ")?;
        }
        add_instant(&mut told, *instant)?;
    }
    Ok(Some(told))
}

/// How many edges an instant has.
fn edges_of(instant: Instant) -> u64 {
    u64::from(instant.crank.is_some())
        + u64::from(instant.cam1.is_some())
        + u64::from(instant.cam2.is_some())
}

/// What is told of how many instants and edges there are, and of their times.
pub fn told_of_totals(
    alloc: Global,
    slots: &str,
    parts: &str,
    of: &str,
) -> Result<Option<String>, AllocError> {
    let stimulus = match stimulus_of(alloc, slots, parts, of)? {
        Told::Whole(stimulus) => stimulus,
        Told::Refused(why) => return Ok(Some(why)),
        Told::NoRow => return Ok(None),
    };
    let mut count = 0_u64;
    let mut edges = 0_u64;
    let mut sum = 0_i128;
    let mut by_place = 0_i128;
    let mut last = Instant::default();
    for instant in stimulus.instants() {
        count = count.wrapping_add(1);
        edges = edges.wrapping_add(edges_of(*instant));
        sum = sum.wrapping_add(instant.time);
        by_place = by_place.wrapping_add(instant.time.wrapping_mul(i128::from(count)));
        last = *instant;
    }
    let sums = (sum.rem_euclid(1 << 64), by_place.rem_euclid(1 << 64));
    let mut told = format!(in alloc;
        "{count} instants, {edges} edges, sums {} {}, ",
        sums.0, sums.1
    )?;
    add_instant(&mut told, last)?;
    Ok(Some(told))
}
