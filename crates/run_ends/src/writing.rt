//! Writing on out.
ghost use Rattle.std.specs.Prelude.{◌≡◌, ◌≤◌, IfErr, OnOk, OnErr, IsErrOf, IsTrue};
ghost use Rattle.std.specs.Io.KnownBytes.{Appends};
ghost use Rattle.shelf_traits.specs.Count.{Rose};
ghost use Rattle.run_ends.specs.Prefixes.{AppendsPrefix};
ghost use Rattle.run_ends.specs.Works.{StopsWrite};

use crate::Cause;
use shelf_io::{PutFault, Sink, write_all};

/// Writes a whole text.
pub fn put<O: Sink>(out: &mut O, text: &[u8]) -> Result<(), Cause>
    ensures later { O.faults out.old ≤ O.faults out.new }
    ensures ok { OnOk result (Appends (O.taken out.old) (O.taken out.new) text.now) }
    ensures err { OnErr result (AppendsPrefix (O.taken out.old) (O.taken out.new) text.now) }
    ensures kinds { IfErr result StopsWrite }
    ensures write { IsErrOf result Cause.WriteFault → Rose (O.faults out.old) (O.faults out.new) }
    ensures quiet { ¬ IsErrOf result Cause.WriteFault → O.faults out.new ≡ O.faults out.old }
    ensures steady { IsTrue (O.steady out.old) → IsTrue (O.steady out.new) }
    ensures calm { IsTrue (O.steady out.old) → ¬ IsErrOf result Cause.WriteFault }
{
    match write_all(out, text) {
        Ok(()) => Ok(()),
        Err(PutFault::Failed { .. }) => Err(Cause::WriteFault),
        Err(PutFault::Memory { .. }) => Err(Cause::Memory),
    }
}
