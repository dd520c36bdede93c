//! Writing a line whole, on out and into a file; or less than all of it.
ghost use Rattle.std.specs.Prelude.{◌≡◌, ◌≤◌, IfErr, OnOk, OnErr, IsErrOf, IsTrue};
ghost use Rattle.std.specs.Io.KnownBytes.{Appends};
ghost use Rattle.shelf_traits.specs.Count.{Rose};
ghost use Rattle.shelf_traits.specs.Shelf.{IsWriter, WritesOn};
ghost use Rattle.run_ends.specs.Filing.{Grows, StoppedOver};
ghost use Rattle.run_ends.specs.Works.{StopsWrite};
ghost use Rattle.certified_replay.specs.Wholes.{AppendsPart, GrowsByPart};

use run_ends::Cause;
use shelf_io::{PutFault, Shelf, Sink, put_all, write_all};

/// Writes a whole line on out.
///
/// # Errors
/// `WriteFault` where the count of out rose, or `Memory`. A front of the line went out then, but not all of it.
pub fn put_line<O: Sink>(out: &mut O, line: &[u8]) -> Result<(), Cause>
    ensures later { O.faults out.old ≤ O.faults out.new }
    ensures ok { OnOk result (Appends (O.taken out.old) (O.taken out.new) line.now) }
    ensures err { OnErr result (AppendsPart (O.taken out.old) (O.taken out.new) line.now) }
    ensures kinds { IfErr result StopsWrite }
    ensures write { IsErrOf result Cause.WriteFault → Rose (O.faults out.old) (O.faults out.new) }
    ensures quiet { ¬ IsErrOf result Cause.WriteFault → O.faults out.new ≡ O.faults out.old }
    ensures steady { IsTrue (O.steady out.old) → IsTrue (O.steady out.new) }
    ensures calm { IsTrue (O.steady out.old) → ¬ IsErrOf result Cause.WriteFault }
{
    match write_all(out, line) {
        Ok(()) => Ok(()),
        Err(PutFault::Failed { .. }) => Err(Cause::WriteFault),
        Err(PutFault::Memory { .. }) => Err(Cause::Memory),
    }
}

/// Puts a whole line at the end of a created file.
///
/// # Errors
/// `WriteFault` where the shelf's count of create and write rose, or `Memory`. A front of the line was put then, but not all of it.
pub fn put_beside<S: Shelf>(shelf: &mut S, slot: u32, line: &[u8]) -> Result<(), Cause>
    requires writer { IsWriter (S.view shelf.old) slot }
    ensures keeps { WritesOn (S.view shelf.old) (S.view shelf.new) slot }
    ensures grows { OnOk result (Grows (S.view shelf.old) (S.view shelf.new) slot line.now) }
    ensures settled { OnOk result ((S.view shelf.new).faults_out ≡ (S.view shelf.old).faults_out) }
    ensures part { OnErr result (GrowsByPart (S.view shelf.old) (S.view shelf.new) slot line.now) }
    ensures stopped { IfErr result (StoppedOver (S.view shelf.old) (S.view shelf.new)) }
{
    match put_all(shelf, slot, line) {
        Ok(()) => Ok(()),
        Err(PutFault::Failed { .. }) => Err(Cause::WriteFault),
        Err(PutFault::Memory { .. }) => Err(Cause::Memory),
    }
}
