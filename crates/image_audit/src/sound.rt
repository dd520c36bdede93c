//! Images that hold the tables of their own wheels.
ghost use Rattle.std.specs.Prelude.{◌≡◌, ◌≢◌, OnOk, IfOk, IfErr};
ghost use Rattle.image_layout.specs.Tables.{KeepsLayout};
ghost use Rattle.image_layout.specs.Fields.{wheel_parts_of};
ghost use Rattle.position_nfa.specs.Alphabets.{IsAlphabetOf};
ghost use Rattle.position_nfa.specs.Views.{alphabet};
ghost use Rattle.table_images.specs.Images.{IsSoundImage};
ghost use Rattle.image_audit.specs.Agreements.{Agrees};
ghost use Rattle.image_audit.specs.Differences.{IsFirst};
ghost use Rattle.image_audit.specs.Audits.{IsAuditFault};

use crate::kinds::check_kinds;
use crate::lists::check_lists;
use crate::reach::check_reached;
use crate::rows::check_rows;
use crate::start::check_start;
use crate::states::number_states;
use audit_faults::AuditFault;
use cam_ranges::PlaceFault;
use image_format::View;
use position_nfa::Nfa;
use std::alloc::Global;

/// A view of an image that holds the table of its own wheel: its places, its cuts, and every state that words of letters reach, once.
#[derive(Drop)]
pub struct Sound<'a> {
    view: View<'a>,
    pub ghost sound: { ∥ IsSoundImage view.bytes.now ∥₁ },
}

impl<'a> Sound<'a> {
    /// The view of its bytes. It takes no memory.
    pub fn view(&self) -> &View<'a>
        ensures view { result.now ≡ self.now.view }
        ensures sound { ∥ IsSoundImage result.now.bytes.now ∥₁ }
    {
        &self.view
    }
}

/// The automaton of the image's wheel.
fn automaton(alloc: Global, view: &View<'_>) -> Result<Nfa, AuditFault>
    ensures alphabet { IfOk result (λ nfa. IsAlphabetOf (wheel_parts_of view.now.bytes.now) (alphabet nfa)) }
    ensures first { IfErr result (IsAuditFault view.now.bytes.now) }
{
    let wheel = view.wheel(alloc)?;
    match Nfa::build(alloc, &wheel) {
        Ok(nfa) => Ok(nfa),
        Err(PlaceFault::TooMany) => Err(AuditFault::TooManyPlaces),
        Err(PlaceFault::Memory) => Err(AuditFault::Memory),
    }
}

/// The parts of the table, in the order in which they are compared.
fn check_table(alloc: Global, nfa: &Nfa, view: &View<'_>) -> Result<(), AuditFault>
    requires layout { KeepsLayout view.now.bytes.now }
    requires of_wheel { IsAlphabetOf (wheel_parts_of view.now.bytes.now) (alphabet nfa.now) }
    ensures same { OnOk result (Agrees (alphabet nfa.now) view.now.bytes.now) }
    ensures first { IfErr result (IsFirst (alphabet nfa.now) view.now.bytes.now) }
{
    check_lists(nfa, view)?;
    check_start(alloc, nfa, view)?;
    let states = number_states(alloc, nfa, view)?;
    check_kinds(nfa, view, &states)?;
    check_rows(alloc, nfa, view, &states)?;
    check_reached(alloc, nfa, view)
}

/// The image is sound.
fn check(alloc: Global, view: &View<'_>) -> Result<(), AuditFault>
    ensures sound { OnOk result (IsSoundImage view.now.bytes.now) }
    ensures first { IfErr result (IsAuditFault view.now.bytes.now) }
{
    let nfa = automaton(alloc, view)?;
    check_table(alloc, &nfa, view)
}

/// Whether an image holds the table of its own wheel: its places, cuts, kinds, sets and rows are those of the wheel under one numbering
/// of the states, each once and reached, with the empty set first and the start second.
///
/// It never makes the wheel's family: time and memory are of the order of the image's entries.
///
/// # Errors
/// The first difference, in the order of `AuditFault`; want of memory.
pub fn audit<'a>(alloc: Global, view: View<'a>) -> Result<Sound<'a>, AuditFault>
    ensures sound { OnOk result (IsSoundImage view.entry.bytes.now) }
    ensures view { IfOk result (λ sound. sound.view ≡ view.entry) }
    ensures first { IfErr result (IsAuditFault view.entry.bytes.now) }
    ensures not_sound { IfErr result (λ fault. fault ≢ AuditFault.Memory → ¬ IsSoundImage view.entry.bytes.now) }
{
    check(alloc, &view)?;
    Ok(Sound { view })
}
