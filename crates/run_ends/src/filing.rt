//! Creating files, and putting pieces into them.
ghost use Rattle.std.specs.Prelude.{◌≡◌, IfOk, IfErr, OnOk, OnErr};
ghost use Rattle.shelf_traits.specs.Shelf.{IsWriter, WritesOn};
ghost use Rattle.run_ends.specs.Filing.{StoppedOver, HasCreated, NotCreated, Grows, GrowsByFront, MakesFile};

use crate::Cause;
use shelf_io::{IoFault, PutFault, Shelf, put_all};

/// Creates an empty file of this name, and gives the slot that writes to it.
///
/// # Errors
/// `WriteFault` where the shelf's count of create and write rose, or `Memory`. No file was made or changed then.
pub fn create_file<S: Shelf>(shelf: &mut S, name: &str) -> Result<u32, Cause>
    ensures created { IfOk result (λ slot. HasCreated (S.view shelf.old) (S.view shelf.new) name.now slot) }
    ensures not_created { IfErr result (NotCreated (S.view shelf.old) (S.view shelf.new) name.now) }
{
    match shelf.create(name) {
        Ok(slot) => Ok(slot),
        Err(IoFault::Failed) => Err(Cause::WriteFault),
        Err(IoFault::Memory) => Err(Cause::Memory),
    }
}

/// Puts a whole piece at the end of a created file.
///
/// # Errors
/// `WriteFault` where the shelf's count of create and write rose, or `Memory`. A front of the piece was put then.
pub fn put_piece<S: Shelf>(shelf: &mut S, slot: u32, piece: &[u8]) -> Result<(), Cause>
    requires writer { IsWriter (S.view shelf.old) slot }
    ensures keeps { WritesOn (S.view shelf.old) (S.view shelf.new) slot }
    ensures grows { OnOk result (Grows (S.view shelf.old) (S.view shelf.new) slot piece.now) }
    ensures settled { OnOk result ((S.view shelf.new).faults_out ≡ (S.view shelf.old).faults_out) }
    ensures front { OnErr result (GrowsByFront (S.view shelf.old) (S.view shelf.new) slot piece.now) }
    ensures stopped { IfErr result (StoppedOver (S.view shelf.old) (S.view shelf.new)) }
{
    match put_all(shelf, slot, piece) {
        Ok(()) => Ok(()),
        Err(PutFault::Failed { .. }) => Err(Cause::WriteFault),
        Err(PutFault::Memory { .. }) => Err(Cause::Memory),
    }
}

/// Makes a file of a text: creates it, and writes the text whole.
///
/// # Errors
/// `WriteFault` where the shelf's count of create and write rose, or `Memory`. The file has a front of the text then, or was not created.
pub fn make_file<S: Shelf>(shelf: &mut S, name: &str, text: &[u8]) -> Result<(), Cause>
    ensures { MakesFile (S.view shelf.old) (S.view shelf.new) name.now text.now result }
{
    let slot = create_file(shelf, name)?;
    put_piece(shelf, slot, text)
}
