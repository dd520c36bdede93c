//! The rows of an image's states.
ghost use Rattle.std.specs.Prelude.{◌≡◌, ◌≤◌, ◌<◌, ◌+◌, ◌↔◌, IsTrue, IfOk, OnOk, IfErr, length, slice_get, Some};
ghost use Rattle.image_layout.specs.Layout.{state_total};
ghost use Rattle.image_layout.specs.Tables.{KeepsLayout};
ghost use Rattle.place_words.specs.Words.{IsSet, words_for, has_none};
ghost use Rattle.position_nfa.specs.Alphabets as alphabets;
ghost use Rattle.position_nfa.specs.Alphabets.{count};
ghost use Rattle.position_nfa.specs.Sets.{effect};
ghost use Rattle.position_nfa.specs.Step.{next_state, dead_state};
ghost use Rattle.position_nfa.specs.Views.{alphabet};
ghost use Rattle.table_images.specs.Images.{table_of};
ghost use Rattle.table_images.specs.Kinds.{AreSets};
ghost use Rattle.image_audit.specs.Agreements.{EntriesTo, AgreesInKinds, AgreesInRows};
ghost use Rattle.image_audit.specs.Differences.{IsDueNumber, IsFirst};

use crate::start::empty_words;
use crate::states::numbered;
use audit_faults::AuditFault;
use image_format::View;
use indexmap::IndexSet;
use position_nfa::{Nfa, Pair, phase_after, write_effect};
use std::alloc::Global;
use wheel_types::List;

/// Writes what a column's letter makes of the set of a state, and answers whether it is empty.
fn write_next(nfa: &Nfa, state: &Pair, column: usize, out: &mut [u64]) -> bool
    requires set { IsSet (count (alphabet nfa.now)) state.now.set }
    requires out { length out.old ≡ words_for (count (alphabet nfa.now)) }
    requires column { column < alphabets.width (alphabet nfa.now) }
    ensures empty { result ≡ has_none (effect (alphabet nfa.now) column state.now.set) }
    ensures set { out.new ≡ effect (alphabet nfa.now) column state.now.set }
{
    write_effect(nfa, state.set.as_slice(), column, out);
    place_words::is_empty(out)
}

/// The number of a state, where it is one of these.
fn number_of(states: &IndexSet<Pair>, state: &Pair) -> Option<u32>
    requires few { length states.now.keys ≤ 65535 }
    ensures { IsDueNumber states.now.keys (Some state.now) result }
{
    match states.get_index_of(state) {
        Some(number) => Some(number as u32),
        None => None,
    }
}

/// The number of the state that a column's letter leads to from a state, 0 where it leads nowhere, and `None` where there is no such
/// state.
fn due_number(
    nfa: &Nfa,
    states: &IndexSet<Pair>,
    state: &Pair,
    column: usize,
    room: Vec<u64>,
) -> (Vec<u64>, Option<u32>)
    requires dead { slice_get states.now.keys 0 ≡ Some (dead_state (alphabet nfa.now)) }
    requires few { length states.now.keys ≤ 65535 }
    requires set { IsSet (count (alphabet nfa.now)) state.now.set }
    requires column { column < alphabets.width (alphabet nfa.now) }
    requires room { length room.items ≡ words_for (count (alphabet nfa.now)) }
    ensures room { length result.0.items ≡ words_for (count (alphabet nfa.now)) }
    ensures due { IsDueNumber states.now.keys (next_state (alphabet nfa.now) state.now column) result.1 }
{
    let mut room = room;
    let Some(to) = phase_after(nfa, state.phase, column) else {
        return (room, Some(0));
    };
    if write_next(nfa, state, column, room.as_mut_slice()) {
        return (room, Some(0));
    }
    let next = Pair {
        phase: to,
        set: List::from_vec(room),
    };
    let number = number_of(states, &next);
    (next.set.into_vec(), number)
}

/// Whether a number is the due one.
fn is_due(found: u32, due: Option<u32>) -> bool
    ensures { IsTrue result ↔ (Some found ≡ due) }
{
    Some(found) == due
}

/// The entries of the row of state `q` are due.
fn check_row(
    nfa: &Nfa,
    view: &View<'_>,
    states: &IndexSet<Pair>,
    q: u32,
    room: Vec<u64>,
) -> Result<Vec<u64>, AuditFault>
    requires layout { KeepsLayout view.now.bytes.now }
    requires agrees { AgreesInKinds (alphabet nfa.now) view.now.bytes.now }
    requires states { states.now.keys ≡ (table_of view.now.bytes.now).states }
    requires sets { AreSets (alphabet nfa.now) states.now.keys }
    requires there { q < state_total view.now.bytes.now }
    requires before { EntriesTo (alphabet nfa.now) view.now.bytes.now q 0 }
    requires room { length room.items ≡ words_for (count (alphabet nfa.now)) }
    ensures same { OnOk result (EntriesTo (alphabet nfa.now) view.now.bytes.now (q + 1) 0) }
    ensures room { IfOk result (λ room. length room.items ≡ words_for (count (alphabet nfa.now))) }
    ensures first { IfErr result (IsFirst (alphabet nfa.now) view.now.bytes.now) }
{
    let state = numbered(states, q);
    let mut room = room;
    for column in 0..view.row_width() {
        let found = view.entry(q, column);
        let (next, due) = due_number(nfa, states, state, column as usize, room);
        room = next;
        if !is_due(found, due) {
            return Err(AuditFault::Mismatch {
                state: q,
                letter: column,
                found,
                due,
            });
        }
    }
    Ok(room)
}

/// Each entry is the number of the state that its letter leads to.
pub fn check_rows(
    alloc: Global,
    nfa: &Nfa,
    view: &View<'_>,
    states: &IndexSet<Pair>,
) -> Result<(), AuditFault>
    requires layout { KeepsLayout view.now.bytes.now }
    requires agrees { AgreesInKinds (alphabet nfa.now) view.now.bytes.now }
    requires states { states.now.keys ≡ (table_of view.now.bytes.now).states }
    requires sets { AreSets (alphabet nfa.now) states.now.keys }
    ensures same { OnOk result (AgreesInRows (alphabet nfa.now) view.now.bytes.now) }
    ensures first { IfErr result (IsFirst (alphabet nfa.now) view.now.bytes.now) }
{
    let mut room = empty_words(alloc, nfa)?;
    for q in 0..view.state_count() {
        room = check_row(nfa, view, states, q, room)?;
    }
    Ok(())
}
