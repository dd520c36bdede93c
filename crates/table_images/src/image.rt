//! Compiling a wheel.
ghost use Rattle.std.specs.Prelude.{◌≡◌, ℕ, IfOk, IfErr, OnOk};
ghost use Rattle.cam_ranges.specs.Places.{HasTooMany};
ghost use Rattle.position_nfa.specs.Alphabets.{IsAlphabetOf};
ghost use Rattle.position_nfa.specs.Views.{alphabet};
ghost use Rattle.subset_build.specs.Views.{table_states, table_rows};
ghost use Rattle.table_images.specs.Kinds.{AreSets};
ghost use Rattle.table_images.specs.Tables.{IsTable, AreParts, HasRows};
ghost use Rattle.table_images.specs.Images.{IsCompiled, IsTooLarge};

use crate::fault::CompileFault;
use crate::kinds::state_kinds;
use crate::parts::{members, phases, places, ratio_cuts, time_cuts, wheel_parts};
use cam_ranges::PlaceFault;
use image_layout::{ImageParts, write_image};
use position_nfa::Nfa;
use std::alloc::{AllocError, Global};
use subset_build::{BuildFault, Table, build_table};
use wheel_types::Wheel;

/// The automaton of the wheel.
fn automaton(alloc: Global, wheel: &Wheel) -> Result<Nfa, CompileFault>
    ensures alphabet { IfOk result (λ nfa. IsAlphabetOf wheel.now.parts (alphabet nfa)) }
    ensures not_more { OnOk result (¬ HasTooMany wheel.now.parts) }
    ensures many { IfErr result (λ fault. fault ≡ CompileFault.TooManyPlaces → HasTooMany wheel.now.parts) }
    ensures not_large { IfErr result (λ fault. (l : ℕ) → fault ≡ CompileFault.TooLarge l → ⊥) }
{
    match Nfa::build(alloc, wheel) {
        Ok(nfa) => Ok(nfa),
        Err(PlaceFault::TooMany) => Err(CompileFault::TooManyPlaces),
        Err(PlaceFault::Memory) => Err(CompileFault::Memory),
    }
}

/// The table of the wheel's automaton.
fn table(alloc: Global, wheel: &Wheel, nfa: &Nfa, limit: u32) -> Result<Table, CompileFault>
    requires { IsAlphabetOf wheel.now.parts (alphabet nfa.now) }
    ensures table { IfOk result (λ table. IsTable wheel.now.parts (alphabet nfa.now) limit (table_states table)) }
    ensures rows { IfOk result (λ table. HasRows (alphabet nfa.now) (table_states table) (table_rows table)) }
    ensures not_many { IfErr result (λ fault. fault ≡ CompileFault.TooManyPlaces → ⊥) }
    ensures large { IfErr result (λ fault. (l : ℕ) → fault ≡ CompileFault.TooLarge l → IsTooLarge wheel.now.parts limit l) }
{
    match build_table(alloc, nfa, limit) {
        Ok(table) => Ok(table),
        Err(BuildFault::TooLarge { limit }) => Err(CompileFault::TooLarge { limit }),
        Err(BuildFault::Memory) => Err(CompileFault::Memory),
    }
}

/// The parts of the table's image.
fn parts(alloc: Global, wheel: &Wheel, nfa: &Nfa, table: Table) -> Result<ImageParts, AllocError>
    requires sets { AreSets (alphabet nfa.now) (table_states table) }
    requires rows { HasRows (alphabet nfa.now) (table_states table) (table_rows table) }
    ensures parts { IfOk result (λ parts. AreParts wheel.now.parts (alphabet nfa.now) (table_states table) parts) }
{
    let phases = phases(alloc, &table)?;
    let kinds = state_kinds(alloc, nfa, &table)?;
    let members = members(alloc, &table)?;
    Ok(ImageParts {
        wheel: wheel_parts(alloc, wheel)?,
        places: places(alloc, nfa)?,
        time_cuts: time_cuts(alloc, nfa.cuts())?,
        ratio_cuts: ratio_cuts(alloc, nfa.cuts())?,
        phases,
        kinds,
        members,
        rows: table.into_rows(),
    })
}

/// The image of a wheel, with at most so many states.
///
/// # Errors
/// In this order: `TooManyPlaces` where the wheel has more than 16,384 places; `TooLarge` where its family has more states than the
/// limit that holds, which it carries; want of memory.
pub fn compile(alloc: Global, wheel: &Wheel, limit: u32) -> Result<Vec<u8>, CompileFault>
    ensures image { IfOk result (λ bytes. IsCompiled wheel.now.parts limit bytes.items) }
    ensures not_more { OnOk result (¬ HasTooMany wheel.now.parts) }
    ensures many { IfErr result (λ fault. fault ≡ CompileFault.TooManyPlaces → HasTooMany wheel.now.parts) }
    ensures large { IfErr result (λ fault. (l : ℕ) → fault ≡ CompileFault.TooLarge l → IsTooLarge wheel.now.parts limit l × ¬ HasTooMany wheel.now.parts) }
{
    let nfa = automaton(alloc, wheel)?;
    let table = table(alloc, wheel, &nfa, limit)?;
    let parts = parts(alloc, wheel, &nfa, table)?;
    Ok(write_image(alloc, &parts)?)
}
