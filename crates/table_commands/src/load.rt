//! Loading a wheel with its set automaton.
ghost use Rattle.std.specs.Prelude.{IfOk};
ghost use Rattle.run_ends.specs.Loads.{Loads};
ghost use Rattle.run_files.specs.Files.{HasPlacedWheel};
ghost use Rattle.run_files.specs.Causes.{ModelGives};
ghost use Rattle.position_nfa.specs.Alphabets.{IsAlphabetOf, wheel};
ghost use Rattle.position_nfa.specs.Views.{alphabet};

use cam_ranges::PlaceFault;
use position_nfa::Nfa;
use run_ends::{Cause, Limit};
use run_files::load_wheel;
use shelf_io::Shelf;
use std::alloc::Global;

/// Reads the file of a wheel, and makes its set automaton.
///
/// # Errors
/// `Refusal::Wheel` with the first fault of a file that is no wheel's; `Limit::Places` past 16,384 places; `ReadFault` where the shelf
/// failed, `Limit::File` past 2^28 bytes, or `Memory`.
pub fn load_nfa<S: Shelf>(alloc: Global, shelf: &mut S, name: &str) -> Result<Nfa, Cause>
    ensures loads { Loads (S.view shelf.old) (S.view shelf.old) (S.view shelf.new) name.now (ModelGives (S.view shelf.old).file name.now)
        (λ nfa. HasPlacedWheel (S.view shelf.old).file name.now (wheel (alphabet nfa))) result }
    ensures own { IfOk result (λ nfa. IsAlphabetOf (wheel (alphabet nfa)) (alphabet nfa)) }
{
    let wheel = load_wheel(alloc, shelf, name)?;
    match Nfa::build(alloc, &wheel) {
        Ok(nfa) => Ok(nfa),
        Err(PlaceFault::TooMany) => Err(Cause::Limit(Limit::Places)),
        Err(PlaceFault::Memory) => Err(Cause::Memory),
    }
}
