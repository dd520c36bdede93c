//! The letters of one state.
ghost use Rattle.std.specs.Prelude.{◌≡◌, ℕ, ◌≤◌, ◌<◌, Some, slice_get, length, OnOk, IfErr, IfOk};
ghost use Rattle.place_words.specs.Words.{IsSet, words_for, has_none};
ghost use Rattle.position_nfa.specs.Sets.{effect};
ghost use Rattle.position_nfa.specs.Alphabets as alphabets;
ghost use Rattle.position_nfa.specs.Alphabets.{count};
ghost use Rattle.position_nfa.specs.Views.{alphabet};
ghost use Rattle.position_nfa.specs.Families.{taken, numbered_if};
ghost use Rattle.subset_build.specs.Families.{LeadsToFull, FillsUp};
ghost use Rattle.position_nfa.specs.Sound.{IsDue};
ghost use Rattle.position_nfa.specs.Step.{next_state, dead_state};

use crate::fault::BuildFault;
use crate::put::put;
use indexmap::IndexSet;
use position_nfa::{Nfa, Pair, phase_after, width, write_effect};
use std::alloc::Global;
use wheel_types::List;

/// Writes what a column's letter makes of the set of state `q`, and answers whether it is empty.
fn write_next(nfa: &Nfa, q: &Pair, column: usize, out: &mut [u64]) -> bool
    requires set { IsSet (count (alphabet nfa.now)) q.now.set }
    requires out { length out.old ≡ words_for (count (alphabet nfa.now)) }
    requires column { column < alphabets.width (alphabet nfa.now) }
    ensures empty { result ≡ has_none (effect (alphabet nfa.now) column q.now.set) }
    ensures set { out.new ≡ effect (alphabet nfa.now) column q.now.set }
{
    write_effect(nfa, q.set.as_slice(), column, out);
    place_words::is_empty(out)
}

/// Takes one letter of state `q`, where the column is one: the state that it leads to gets the next number if it has none. It answers
/// that state's number, and 0 where the column leads nowhere.
pub fn take_letter(
    alloc: Global,
    nfa: &Nfa,
    limit: u32,
    states: &mut IndexSet<Pair>,
    q: &Pair,
    column: usize,
    room: Vec<u64>,
) -> Result<(Vec<u64>, usize), BuildFault>
    requires small { length states.old.keys ≤ limit }
    requires dead { slice_get states.old.keys 0 ≡ Some (dead_state (alphabet nfa.now)) }
    requires set { IsSet (count (alphabet nfa.now)) q.now.set }
    requires column { column < alphabets.width (alphabet nfa.now) }
    requires room { length room.items ≡ words_for (count (alphabet nfa.now)) }
    ensures numbers { OnOk result (states.new.keys
        ≡ numbered_if (alphabet nfa.now) states.old.keys (next_state (alphabet nfa.now) q.now column)) }
    ensures within { OnOk result (length states.new.keys ≤ limit) }
    ensures room { IfOk result (λ r. length r.0.items ≡ words_for (count (alphabet nfa.now))) }
    ensures due { IfOk result (λ r. IsDue states.new.keys (next_state (alphabet nfa.now) q.now column) r.1) }
    ensures below { IfOk result (λ r. r.1 < length states.new.keys) }
    ensures too_large { IfErr result (λ e. (l : ℕ) → e ≡ BuildFault.TooLarge l
        → (l ≡ limit) × LeadsToFull (alphabet nfa.now) states.old.keys limit q.now column) }
{
    let mut room = room;
    let Some(to) = phase_after(nfa, q.phase, column) else {
        return Ok((room, 0));
    };
    if write_next(nfa, q, column, room.as_mut_slice()) {
        return Ok((room, 0));
    }
    let next = Pair {
        phase: to,
        set: List::from_vec(room),
    };
    let number = put(alloc, nfa, limit, states, &next)?;
    Ok((next.set.into_vec(), number))
}

/// Takes the letters of state `q`: each state that they lead to and that has no number gets the next one.
pub fn take_letters(
    alloc: Global,
    nfa: &Nfa,
    limit: u32,
    states: &mut IndexSet<Pair>,
    q: &Pair,
    room: Vec<u64>,
) -> Result<Vec<u64>, BuildFault>
    requires small { length states.old.keys ≤ limit }
    requires dead { slice_get states.old.keys 0 ≡ Some (dead_state (alphabet nfa.now)) }
    requires set { IsSet (count (alphabet nfa.now)) q.now.set }
    requires room { length room.items ≡ words_for (count (alphabet nfa.now)) }
    ensures numbers { OnOk result (states.new.keys ≡ taken (alphabet nfa.now) states.old.keys q.now (alphabets.width (alphabet nfa.now))) }
    ensures within { OnOk result (length states.new.keys ≤ limit) }
    ensures room { IfOk result (λ r. length r.items ≡ words_for (count (alphabet nfa.now))) }
    ensures too_large { IfErr result (λ e. (l : ℕ) → e ≡ BuildFault.TooLarge l
        → (l ≡ limit) × FillsUp (alphabet nfa.now) states.old.keys limit q.now) }
{
    let mut room = room;
    for column in 0..width(nfa) {
        let (next, _) = take_letter(alloc, nfa, limit, states, q, column, room)?;
        room = next;
    }
    Ok(room)
}
