//! A capture by the names that options give.
ghost use Rattle.std.specs.Prelude.{◌≡◌, ◌^◌, IfOk, option_map, string_bytes};
ghost use Rattle.wheel_types.specs.Verdicts.{IsRising, AreWithin};
ghost use Rattle.edge_angles.specs.EdgeTables.{AreEdgesOf};
ghost use Rattle.command_words.specs.Options.{options_of};
ghost use Rattle.run_ends.specs.Loads.{Loads};
ghost use Rattle.run_files.specs.Causes.{FileGives};
ghost use Rattle.named_captures.specs.Captures.{HasNames, IsCapture, HasNamedCapture, HasCleanCapture, CleanGives, named, watched, watch_of};
ghost use Rattle.capture_core.specs.declared.capture.End.{End as Ending};

use capture_core::{Capture, Names, Watch};
use capture_file::read_capture;
use command_words::Options;
use edge_angles::Edges;
use run_ends::Cause;
use run_files::{ended, load_capture};
use shelf_io::Shelf;
use std::alloc::{AllocError, Global};
use wheel_types::{Channel, Keep, Memory, Wheel};

/// A name that an option gives, or the usual one.
fn name_or(alloc: Global, given: Option<&str>, usual: &str) -> Result<String, AllocError>
    ensures { IfOk result (λ name. string_bytes name ≡ named (option_map (λ s. s.now) given.entry) usual.now) }
{
    match given {
        Some(name) => String::from_str(alloc, name),
        None => String::from_str(alloc, usual),
    }
}

/// The name of the column of times, where an option gives one.
fn time_name(alloc: Global, given: Option<&str>) -> Result<Option<String>, AllocError>
    ensures { IfOk result (λ name. option_map string_bytes name ≡ option_map (λ s. s.now) given.entry) }
{
    match given {
        Some(name) => Ok(Some(String::from_str(alloc, name)?)),
        None => Ok(None),
    }
}

/// The names of a capture's columns.
fn names_of(alloc: Global, options: Options<'_>) -> Result<Names, AllocError>
    ensures { IfOk result (λ names. HasNames (options_of options.entry) names) }
{
    let time = time_name(alloc, options.time)?;
    let crank = name_or(alloc, options.crank, "crank")?;
    let cam1 = name_or(alloc, options.cam1, "cam1")?;
    let cam2 = name_or(alloc, options.cam2, "cam2")?;
    Ok(Names {
        time,
        crank,
        cam1,
        cam2,
    })
}

/// What is watched of a cam with so many kept edges, and whether an option names it.
fn cam_watch(keep: Keep, edges: u32, given: Option<&str>) -> Option<Keep>
    ensures { result ≡ watched keep edges (option_map (λ s. s.now) given.entry) }
{
    if given.is_some() || edges > 0 {
        Some(keep)
    } else {
        None
    }
}

/// What is watched of a wheel's channels.
fn watch_for(wheel: &Wheel, edges: &Edges, options: Options<'_>) -> Watch
    requires edges { AreEdgesOf wheel.now.parts edges.now }
    ensures { result ≡ watch_of wheel.now.parts (options_of options.entry) }
{
    let cam1 = cam_watch(
        wheel.keep(Channel::Cam1),
        edges.cam_count(Channel::Cam1),
        options.cam1,
    );
    let cam2 = cam_watch(
        wheel.keep(Channel::Cam2),
        edges.cam_count(Channel::Cam2),
        options.cam2,
    );
    Watch {
        crank: wheel.keep(Channel::Crank),
        cam1,
        cam2,
    }
}

/// The capture of a file's bytes over a wheel, by the names that options give, as `load_named` reads it of a file. It asks the wheel's
/// edges.
///
/// # Errors
/// Want of memory.
pub fn read_named(
    alloc: Global,
    bytes: &[u8],
    options: Options<'_>,
    wheel: &Wheel,
    edges: &Edges,
) -> Result<Capture, Memory>
    requires edges { AreEdgesOf wheel.now.parts edges.now }
    ensures capture { IfOk result (IsCapture wheel.now.parts (options_of options.entry) bytes.now) }
    ensures rising { IfOk result (λ c. IsRising c.instants) }
    ensures within { IfOk result (λ c. AreWithin (10 ^ 24) c.instants) }
{
    let names = names_of(alloc, options)?;
    read_capture(alloc, bytes, &names, watch_for(wheel, edges, options))
}

/// Reads the capture of a file over a wheel. Its columns or signals have the names that options give, or `crank`, `cam1` and `cam2`; a cam
/// is watched where its option is given or the wheel has a kept edge on it. It asks the wheel's edges.
pub fn load_named<S: Shelf>(
    alloc: Global,
    shelf: &mut S,
    name: &str,
    options: Options<'_>,
    wheel: &Wheel,
    edges: &Edges,
) -> Result<Capture, Cause>
    requires edges { AreEdgesOf wheel.now.parts edges.now }
    ensures loads { Loads (S.view shelf.old) (S.view shelf.old) (S.view shelf.new) name.now (FileGives (S.view shelf.old).file name.now)
        (HasNamedCapture (S.view shelf.old).file name.now wheel.now.parts (options_of options.entry)) result }
    ensures rising { IfOk result (λ c. IsRising c.instants) }
    ensures within { IfOk result (λ c. AreWithin (10 ^ 24) c.instants) }
{
    let Ok(names) = names_of(alloc, options) else {
        return Err(Cause::Memory);
    };
    load_capture(alloc, shelf, name, &names, watch_for(wheel, edges, options))
}

/// Reads the capture of a file over a wheel, which is to end clean. It is `load_named`, but that a fault of the file is an error.
///
/// # Errors
/// `Refusal::Csv` or `Refusal::Vcd` with the capture's own fault; `ReadFault`, `Limit::File` or `Memory`.
pub fn load_clean<S: Shelf>(
    alloc: Global,
    shelf: &mut S,
    name: &str,
    options: Options<'_>,
    wheel: &Wheel,
    edges: &Edges,
) -> Result<Capture, Cause>
    requires edges { AreEdgesOf wheel.now.parts edges.now }
    ensures loads { Loads (S.view shelf.old) (S.view shelf.old) (S.view shelf.new) name.now (CleanGives (S.view shelf.old).file name.now wheel.now.parts (options_of options.entry))
        (HasCleanCapture (S.view shelf.old).file name.now wheel.now.parts (options_of options.entry)) result }
    ensures rising { IfOk result (λ c. IsRising c.instants) }
    ensures within { IfOk result (λ c. AreWithin (10 ^ 24) c.instants) }
    ensures clean { IfOk result (λ c. c.end ≡ Ending.Clean) }
{
    let capture = load_named(alloc, shelf, name, options, wheel, edges)?;
    match ended(capture.end) {
        Ok(_) => Ok(capture),
        Err(cause) => Err(cause),
    }
}
