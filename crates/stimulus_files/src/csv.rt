//! The comma-separated values of a list of instants.
ghost use Rattle.std.specs.Prelude.{◌≡◌, ◌++◌, ◌^◌, IfOk, OnOk, pos, unsigned_abs};
ghost use Rattle.wheel_types.specs.Verdicts.{AreWithin};
ghost use Rattle.capture_core.specs.Stamps.{over};
ghost use Rattle.stimulus_files.specs.Files.{csv_header, field_text, row_text, seconds_text};
ghost use Rattle.stimulus_files.specs.FilesOf.{IsCsvText};
ghost use Rattle.stimulus_files.specs.Written.{AreSmall};

use crate::merge::{Merge, Opened};
use crate::text::{SECOND, level_digit, push, push_decimals, push_number};
use capture_core::{Given, Watch};
use std::alloc::Global;
use wheel_types::{Instant, Memory};

/// The line of the columns' names.
fn header(alloc: Global, watch: Watch) -> Result<Vec<u8>, Memory>
    ensures { IfOk result (λ text. text.items ≡ csv_header watch) }
{
    let mut text = Vec::new(alloc);
    push(&mut text, b"time,crank")?;
    if watch.cam1.is_some() {
        push(&mut text, b",cam1")?;
    }
    if watch.cam2.is_some() {
        push(&mut text, b",cam2")?;
    }
    push(&mut text, b"\n")?;
    Ok(text)
}

/// Puts a time in seconds at the end.
fn push_seconds(text: &mut Vec<u8>, time: u128) -> Result<(), Memory>
    ensures { OnOk result (text.new.items ≡ text.old.items ++ seconds_text time) }
{
    push_number(text, time / SECOND)?;
    push(text, b".")?;
    push_decimals(text, time % SECOND)
}

/// Puts a level's field at the end, where there is a level.
fn push_field(text: &mut Vec<u8>, level: Option<bool>) -> Result<(), Memory>
    ensures { OnOk result (text.new.items ≡ text.old.items ++ field_text level) }
{
    match level {
        None => Ok(()),
        Some(level) => push(text, &[b',', level_digit(level)]),
    }
}

/// Puts a row at the end: a time and the levels of all channels.
fn push_row(text: &mut Vec<u8>, time: i128, known: Given) -> Result<(), Memory>
    ensures { OnOk result (text.new.items ≡ text.old.items ++ row_text time known) }
{
    push_seconds(text, time.unsigned_abs())?;
    push_field(text, known.crank)?;
    push_field(text, known.cam1)?;
    push_field(text, known.cam2)?;
    push(text, b"\n")
}

/// The levels of the one, with those of the other where the one has none.
fn over(given: Given, known: Given) -> Given
    ensures { result ≡ over given known }
{
    Given {
        crank: given.crank.or(known.crank),
        cam1: given.cam1.or(known.cam1),
        cam2: given.cam2.or(known.cam2),
    }
}

/// The comma-separated values of instants: a header, and a row with all levels for time 0 and for each time at which a watched channel
/// changes. Times are in seconds with 15 decimals. Levels are those of `write_vcd`, which asks the same.
///
/// # Errors
/// Want of memory.
pub fn write_csv(alloc: Global, watch: Watch, instants: &[Instant]) -> Result<Vec<u8>, Memory>
    requires times { AreWithin (10 ^ 24) instants.now }
    requires small { AreSmall watch instants.now }
    ensures { IfOk result (λ text. IsCsvText watch instants.now text.items) }
{
    let mut text = header(alloc, watch)?;
    let Opened { mut merge, given } = Merge::open(instants, watch);
    let mut known = given;
    push_row(&mut text, 0, known)?;
    'stamps: while let Some(stamp) = merge.advance(instants) {
        known = over(stamp.given, known);
        push_row(&mut text, stamp.time, known)?;
    }
    Ok(text)
}
