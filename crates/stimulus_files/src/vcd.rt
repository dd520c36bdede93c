//! The value change dump of a list of instants.
ghost use Rattle.std.specs.Prelude.{◌≡◌, ◌++◌, ◌∷◌, [], ◌^◌, IfOk, OnOk};
ghost use Rattle.wheel_types.specs.Verdicts.{AreWithin};
ghost use Rattle.stimulus_files.specs.Files.{change_text, changes_text, dump_text, stamp_text, vcd_header};
ghost use Rattle.stimulus_files.specs.FilesOf.{IsVcdText};
ghost use Rattle.stimulus_files.specs.Written.{AreSmall};

use crate::merge::{Merge, Opened};
use crate::text::{level_digit, push, push_number};
use capture_core::{Given, Stamp, Watch};
use std::alloc::Global;
use wheel_types::{Instant, Memory};

/// The codes of the crank, the first and the second cam.
const CRANK: u8 = b'!';

const CAM1: u8 = b'"';

const CAM2: u8 = b'#';

/// The lines that name the unit of time and the signals.
fn header(alloc: Global, watch: Watch) -> Result<Vec<u8>, Memory>
    ensures { IfOk result (λ text. text.items ≡ vcd_header watch) }
{
    let mut text = Vec::new(alloc);
    push(
        &mut text,
        b"$timescale 1 fs $end\n$scope module wheel $end\n$var wire 1 ! crank $end\n",
    )?;
    if watch.cam1.is_some() {
        push(&mut text, b"$var wire 1 \" cam1 $end\n")?;
    }
    if watch.cam2.is_some() {
        push(&mut text, b"$var wire 1 # cam2 $end\n")?;
    }
    push(&mut text, b"$upscope $end\n$enddefinitions $end\n")?;
    Ok(text)
}

/// Puts the change of a signal at the end, where a level is given.
fn push_change(text: &mut Vec<u8>, level: Option<bool>, code: u8) -> Result<(), Memory>
    ensures { OnOk result (text.new.items ≡ text.old.items ++ change_text level code) }
{
    match level {
        None => Ok(()),
        Some(level) => push(text, &[level_digit(level), code, b'\n']),
    }
}

/// Puts the changes of a stamp at the end.
fn push_changes(text: &mut Vec<u8>, given: Given) -> Result<(), Memory>
    ensures { OnOk result (text.new.items ≡ text.old.items ++ changes_text given) }
{
    push_change(text, given.crank, CRANK)?;
    push_change(text, given.cam1, CAM1)?;
    push_change(text, given.cam2, CAM2)
}

/// Puts the levels at time 0 at the end.
fn push_dump(text: &mut Vec<u8>, given: Given) -> Result<(), Memory>
    ensures { OnOk result (text.new.items ≡ text.old.items ++ dump_text given) }
{
    push(text, b"#0\n$dumpvars\n")?;
    push_changes(text, given)?;
    push(text, b"$end\n")
}

/// Puts a time and its changes at the end.
fn push_stamp(text: &mut Vec<u8>, stamp: Stamp) -> Result<(), Memory>
    ensures { OnOk result (text.new.items ≡ text.old.items ++ stamp_text stamp) }
{
    push(text, b"#")?;
    push_number(text, stamp.time.unsigned_abs())?;
    push(text, b"\n")?;
    push_changes(text, stamp.given)
}

/// The value change dump of instants: the levels of the watched channels from time 0 on, in femtoseconds. A channel that keeps both
/// polarities changes at its edges; one that keeps a single polarity goes back halfway to its next edge, rounded down. Before its first
/// edge a channel has the other level, and one without an edge has level 0. Where no channel changes, no time is written.
///
/// It asks that no time is greater than 10^24 and that the changes of each watched channel come after time 0, one after the other.
///
/// # Errors
/// Want of memory.
pub fn write_vcd(alloc: Global, watch: Watch, instants: &[Instant]) -> Result<Vec<u8>, Memory>
    requires times { AreWithin (10 ^ 24) instants.now }
    requires small { AreSmall watch instants.now }
    ensures { IfOk result (λ text. IsVcdText watch instants.now text.items) }
{
    let mut text = header(alloc, watch)?;
    let Opened { mut merge, given } = Merge::open(instants, watch);
    push_dump(&mut text, given)?;
    'stamps: while let Some(stamp) = merge.advance(instants) {
        push_stamp(&mut text, stamp)?;
    }
    Ok(text)
}
