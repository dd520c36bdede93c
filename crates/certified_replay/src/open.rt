//! The capture's file: it is opened, and read whole later on.
ghost use Rattle.std.specs.Prelude.{◌≡◌, ◌^◌, IfOk, IfErr, OnOk, IsTrue};
ghost use Rattle.shelf_traits.specs.Count.{RoseWhere};
ghost use Rattle.shelf_traits.specs.Shelf.{IsReader, ReadsOn};
ghost use Rattle.wheel_types.specs.Verdicts.{IsRising, AreWithin};
ghost use Rattle.edge_angles.specs.EdgeTables.{AreEdgesOf};
ghost use Rattle.command_words.specs.Options.{options_of};
ghost use Rattle.certified_replay.specs.Openings.{HasOpened, NotOpened, StopsTaking, AreLeft, IsTaken};

use capture_core::Capture;
use command_words::Options;
use edge_angles::Edges;
use named_captures::read_named;
use run_ends::{Cause, Limit};
use shelf_io::{IoFault, LoadFault, Shelf, read_all};
use std::alloc::Global;
use wheel_types::{Memory, Wheel};

/// Opens a file for reading, and gives its slot.
///
/// # Errors
/// `ReadFault` where the shelf's count of open and read rose, or `Memory`.
pub fn open_file<S: Shelf>(shelf: &mut S, name: &str) -> Result<u32, Cause>
    ensures opened { IfOk result (λ slot. HasOpened (S.view shelf.old) (S.view shelf.new) name.now slot) }
    ensures not_opened { IfErr result (NotOpened (S.view shelf.old) (S.view shelf.new) name.now) }
{
    match shelf.open(name) {
        Ok(slot) => Ok(slot),
        Err(IoFault::Failed) => Err(Cause::ReadFault),
        Err(IoFault::Memory) => Err(Cause::Memory),
    }
}

/// Reads the rest of a slot's file.
fn take_bytes<S: Shelf>(alloc: Global, shelf: &mut S, slot: u32) -> Result<Vec<u8>, Cause>
    requires reader { IsReader (S.view shelf.old) slot }
    ensures keeps { ReadsOn (S.view shelf.old) (S.view shelf.new) slot }
    ensures place { IsTrue (S.view shelf.old).tells → ((S.view shelf.new).place slot).name ≡ ((S.view shelf.old).place slot).name }
    ensures ok { OnOk result ((S.view shelf.new).faults_in ≡ (S.view shelf.old).faults_in) }
    ensures bytes { IfOk result (λ bytes. AreLeft (S.view shelf.old) slot bytes.items) }
    ensures err { IfErr result (λ e. RoseWhere (e ≡ Cause.ReadFault) (S.view shelf.old).faults_in (S.view shelf.new).faults_in) }
    ensures stops { IfErr result (StopsTaking (S.view shelf.old) slot) }
{
    match read_all(alloc, shelf, slot) {
        Ok(bytes) => Ok(bytes),
        Err(LoadFault::Failed) => Err(Cause::ReadFault),
        Err(LoadFault::TooLong) => Err(Cause::Limit(Limit::File)),
        Err(LoadFault::Memory) => Err(Cause::Memory),
    }
}

/// Reads the rest of a slot's file as a capture over a wheel, by the names that options give. It asks the wheel's edges.
///
/// # Errors
/// `ReadFault` where the shelf's count of open and read rose, `Limit::File` past 2^28 bytes, or `Memory`.
pub fn take_capture<S: Shelf>(
    alloc: Global,
    shelf: &mut S,
    slot: u32,
    options: Options<'_>,
    wheel: &Wheel,
    edges: &Edges,
) -> Result<Capture, Cause>
    requires reader { IsReader (S.view shelf.old) slot }
    requires edges { AreEdgesOf wheel.now.parts edges.now }
    ensures keeps { ReadsOn (S.view shelf.old) (S.view shelf.new) slot }
    ensures place { IsTrue (S.view shelf.old).tells → ((S.view shelf.new).place slot).name ≡ ((S.view shelf.old).place slot).name }
    ensures ok { OnOk result ((S.view shelf.new).faults_in ≡ (S.view shelf.old).faults_in) }
    ensures taken { IfOk result (IsTaken (S.view shelf.old) slot wheel.now.parts (options_of options.entry)) }
    ensures err { IfErr result (λ e. RoseWhere (e ≡ Cause.ReadFault) (S.view shelf.old).faults_in (S.view shelf.new).faults_in) }
    ensures stops { IfErr result (StopsTaking (S.view shelf.old) slot) }
    ensures rising { IfOk result (λ c. IsRising c.instants) }
    ensures within { IfOk result (λ c. AreWithin (10 ^ 24) c.instants) }
{
    let bytes = take_bytes(alloc, shelf, slot)?;
    match read_named(alloc, &bytes, options, wheel, edges) {
        Ok(capture) => Ok(capture),
        Err(Memory) => Err(Cause::Memory),
    }
}
