//! Which states words of letters reach.
ghost use Rattle.std.specs.Prelude.{◌≡◌, ◌<◌, ◌↔◌, OnOk, IfOk, IfErr, IsTrue, Contains};
ghost use Rattle.image_layout.specs.Layout.{state_total, row_width};
ghost use Rattle.image_layout.specs.Fields.{wheel_parts_of};
ghost use Rattle.image_layout.specs.Tables.{KeepsLayout};
ghost use Rattle.position_nfa.specs.Alphabets.{IsAlphabetOf};
ghost use Rattle.position_nfa.specs.Views.{alphabet};
ghost use Rattle.image_audit.specs.Agreements.{AgreesInRows, Agrees};
ghost use Rattle.image_audit.specs.Differences.{IsFirst};
ghost use Rattle.image_audit.specs.Walks.{AddsOne, AddsRowTo, AreAllFound};

use audit_faults::AuditFault;
use image_format::View;
use indexmap::IndexSet;
use position_nfa::Nfa;
use std::alloc::{AllocFailed, Global};

/// Adds a state to those found, where it is another than state 0, which is there.
fn add(found: &mut IndexSet<u32>, state: u32) -> Result<(), AllocFailed<u32>>
    requires { Contains found.old.keys 0 }
    ensures { OnOk result (AddsOne found.old.keys state found.new.keys) }
{
    if state != 0 {
        found.insert(state)?;
    }
    Ok(())
}

/// Adds the states of the entries of the row of state `q`.
fn add_row(view: &View<'_>, q: u32, found: &mut IndexSet<u32>) -> Result<(), AllocFailed<u32>>
    requires there { q < state_total view.now.bytes.now }
    requires dead { Contains found.old.keys 0 }
    ensures { OnOk result (AddsRowTo view.now.bytes.now q (row_width view.now.bytes.now) found.old.keys found.new.keys) }
{
    for column in 0..view.row_width() {
        add(found, view.entry(q, column))?;
    }
    Ok(())
}

/// The states that a walk over the rows finds, from the start and the dead state on.
fn find_states(alloc: Global, view: &View<'_>) -> Result<IndexSet<u32>, AuditFault>
    requires layout { KeepsLayout view.now.bytes.now }
    ensures found { IfOk result (λ found. AreAllFound view.now.bytes.now found.keys) }
    ensures memory { IfErr result (λ fault. fault ≡ AuditFault.Memory) }
{
    let mut found = IndexSet::new(alloc);
    found.insert(0)?;
    found.insert(1)?;
    let mut i = 0;
    while i < found.len() {
        let q = found.as_slice()[i];
        add_row(view, q, &mut found)?;
        i += 1;
    }
    Ok(found)
}

/// Whether a state is among those found.
fn is_found(found: &IndexSet<u32>, state: u32) -> bool
    ensures { IsTrue result ↔ Contains found.now.keys state }
{
    found.contains(&state)
}

/// Words of letters reach each state.
pub fn check_reached(alloc: Global, nfa: &Nfa, view: &View<'_>) -> Result<(), AuditFault>
    requires layout { KeepsLayout view.now.bytes.now }
    requires of_wheel { IsAlphabetOf (wheel_parts_of view.now.bytes.now) (alphabet nfa.now) }
    requires agrees { AgreesInRows (alphabet nfa.now) view.now.bytes.now }
    ensures same { OnOk result (Agrees (alphabet nfa.now) view.now.bytes.now) }
    ensures first { IfErr result (IsFirst (alphabet nfa.now) view.now.bytes.now) }
{
    let found = find_states(alloc, view)?;
    for q in 0..view.state_count() {
        if !is_found(&found, q) {
            return Err(AuditFault::Unreached { state: q });
        }
    }
    Ok(())
}
