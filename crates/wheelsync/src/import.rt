//! The command `import`.
ghost use Rattle.std.specs.Prelude.{[], None};
ghost use Rattle.run_ends.specs.Serving.{Served, stream};
ghost use Rattle.wheelsync.specs.Import.{IsImport};

use c_tables::slots_line;
use run_ends::{Cause, Done, put};
use run_files::load_table;
use shelf_io::{Shelf, Sink};
use std::alloc::{AllocError, Global};

/// Prints the slots of the table that a C source has under a name.
pub fn import<S: Shelf, O: Sink>(
    alloc: Global,
    source: &str,
    name: &str,
    shelf: &mut S,
    out: &mut O,
) -> Result<Done, Cause>
    ensures { Served (IsImport (S.view shelf.old) source.now name.now) None (S.view shelf.old) (S.view shelf.new)
        (stream (O.faults out.old) (O.taken out.old) (O.steady out.old)) (stream (O.faults out.new) (O.taken out.new) (O.steady out.new)) [] result }
{
    let slots = load_table(alloc, shelf, source, name)?;
    let line = match slots_line(alloc, &slots) {
        Ok(line) => line,
        Err(AllocError) => return Err(Cause::Memory),
    };
    put(out, &line)?;
    Ok(Done::Whole)
}
