//! Loading the files that a command names.
ghost use Rattle.std.specs.Prelude.{◌≡◌, ◌^◌, IfOk};
ghost use Rattle.run_ends.specs.Loads.{Loads};
ghost use Rattle.wheel_types.specs.Verdicts.{IsRising, AreWithin};
ghost use Rattle.run_files.specs.Files.{Holds, HasCapture, HasTable};
ghost use Rattle.run_files.specs.Causes.{FileGives, SourceGives, ended_by};

use capture_core::{Capture, End, Names, Watch};
use capture_file::read_capture;
use run_ends::{Cause, Done, Limit, NoTable, Refusal};
use shelf_io::{IoFault, LoadFault, Shelf, read_all};
use std::alloc::Global;
use wheel_pattern::{TableFault, read_table};
use wheel_types::Memory;

/// Reads a file whole by its name.
///
/// # Errors
/// `ReadFault`, `Limit::File` past 2^28 bytes, or `Memory`.
pub fn load<S: Shelf>(alloc: Global, shelf: &mut S, name: &str) -> Result<Vec<u8>, Cause>
    ensures { Loads (S.view shelf.old) (S.view shelf.old) (S.view shelf.new) name.now (FileGives (S.view shelf.old).file name.now) (λ bytes. Holds (S.view shelf.old).file name.now bytes.items) result }
{
    let slot = match shelf.open(name) {
        Ok(slot) => slot,
        Err(IoFault::Failed) => return Err(Cause::ReadFault),
        Err(IoFault::Memory) => return Err(Cause::Memory),
    };
    match read_all(alloc, shelf, slot) {
        Ok(bytes) => Ok(bytes),
        Err(LoadFault::Failed) => Err(Cause::ReadFault),
        Err(LoadFault::TooLong) => Err(Cause::Limit(Limit::File)),
        Err(LoadFault::Memory) => Err(Cause::Memory),
    }
}

/// Reads the slots of the table that a C source's file has under a name.
///
/// # Errors
/// `Refusal::Table` with the first fault of a source that has none; `ReadFault`, `Limit::File` or `Memory`.
pub fn load_table<S: Shelf>(
    alloc: Global,
    shelf: &mut S,
    source: &str,
    name: &str,
) -> Result<Vec<u8>, Cause>
    ensures { Loads (S.view shelf.old) (S.view shelf.old) (S.view shelf.new) source.now (SourceGives (S.view shelf.old).file source.now name.now) (λ slots. HasTable (S.view shelf.old).file source.now name.now slots.items) result }
{
    let bytes = load(alloc, shelf, source)?;
    match read_table(alloc, &bytes, name) {
        Ok(slots) => Ok(slots),
        Err(fault) => {
            if fault == TableFault::Memory {
                Err(Cause::Memory)
            } else {
                Err(Cause::Refused(Refusal::Table(NoTable { fault })))
            }
        }
    }
}

/// Reads the capture of a file by these names. A fault of the file is the capture's end and no error. Times are in femtoseconds; they rise,
/// and are at most 10^24 in size.
///
/// # Errors
/// `ReadFault`, `Limit::File` or `Memory`.
pub fn load_capture<S: Shelf>(
    alloc: Global,
    shelf: &mut S,
    name: &str,
    names: &Names,
    watch: Watch,
) -> Result<Capture, Cause>
    ensures loads { Loads (S.view shelf.old) (S.view shelf.old) (S.view shelf.new) name.now (FileGives (S.view shelf.old).file name.now) (HasCapture (S.view shelf.old).file name.now names.now watch) result }
    ensures rising { IfOk result (λ c. IsRising c.instants) }
    ensures within { IfOk result (λ c. AreWithin (10 ^ 24) c.instants) }
{
    let bytes = load(alloc, shelf, name)?;
    match read_capture(alloc, &bytes, names, watch) {
        Ok(capture) => Ok(capture),
        Err(Memory) => Err(Cause::Memory),
    }
}

/// How a run ends whose capture ends so, once the report is written.
pub fn ended(end: End) -> Result<Done, Cause>
    ensures { result ≡ ended_by end }
{
    match end {
        End::Clean => Ok(Done::Whole),
        End::Csv(fault) => Err(Cause::Refused(Refusal::Csv(fault))),
        End::Vcd(fault) => Err(Cause::Refused(Refusal::Vcd(fault))),
    }
}
