//! The family, its states in the order of their numbers.
ghost use Rattle.std.specs.Prelude.{◌≡◌, ℕ, ◌≤◌, ◌<◌, ◌+◌, [], Some, slice_get, length, IfOk, IfErr, OnOk};
ghost use Rattle.wheel_types.specs.declared.parts.WheelParts.{WheelParts as Parts};
ghost use Rattle.place_words.specs.Words.{words_for};
ghost use Rattle.position_nfa.specs.Step.{dead_state, start_state};
ghost use Rattle.position_nfa.specs.Alphabets.{IsAlphabetOf, count};
ghost use Rattle.position_nfa.specs.Views.{alphabet};
ghost use Rattle.position_nfa.specs.Families.{IsLeastFamily, IsNumbering, explored};
ghost use Rattle.subset_build.specs.Families.{IsPastLimit, HasMore};
ghost use Rattle.subset_build.specs.Limit.{effective_limit};
ghost use Rattle.subset_build.specs.Views.{states_of};

use crate::automaton::Automaton;
use crate::fault::BuildFault;
use crate::letters::take_letters;
use crate::limit::limit_of;
use crate::put::put;
use indexmap::IndexSet;
use position_nfa::{Nfa, Pair, write_nowhere};
use std::alloc::{AllocError, Global};
use wheel_types::List;

/// Words of zeros for one set.
pub fn empty_words(alloc: Global, nfa: &Nfa) -> Result<Vec<u64>, AllocError>
    ensures { IfOk result (λ v. length v.items ≡ words_for (count (alphabet nfa.now))) }
{
    let mut out = Vec::new(alloc);
    for _ in 0..nfa.words() {
        out.push(0)?;
    }
    Ok(out)
}

/// Phase 0 with all places.
fn start_pair(alloc: Global, nfa: &Nfa) -> Result<Pair, AllocError>
    ensures { IfOk result (λ p. p ≡ start_state (alphabet nfa.now)) }
{
    let mut words = empty_words(alloc, nfa)?;
    nfa.start(words.as_mut_slice());
    Ok(Pair {
        phase: 0,
        set: List::from_vec(words),
    })
}

/// The state without places.
fn dead_pair(alloc: Global, nfa: &Nfa) -> Result<Pair, AllocError>
    ensures { IfOk result (λ p. p ≡ dead_state (alphabet nfa.now)) }
{
    let mut words = empty_words(alloc, nfa)?;
    write_nowhere(nfa, words.as_mut_slice());
    Ok(Pair {
        phase: 0,
        set: List::from_vec(words),
    })
}

/// Gives numbers to the dead state and the start.
pub fn first_states(
    alloc: Global,
    nfa: &Nfa,
    limit: u32,
    states: &mut IndexSet<Pair>,
) -> Result<(), BuildFault>
    requires { states.old.keys ≡ [] }
    ensures first { OnOk result (states.new.keys ≡ explored (alphabet nfa.now) 0) }
    ensures within { OnOk result (length states.new.keys ≤ limit) }
    ensures too_large { IfErr result (λ e. (l : ℕ) → e ≡ BuildFault.TooLarge l → (l ≡ limit) × IsPastLimit (alphabet nfa.now) limit) }
{
    let dead = dead_pair(alloc, nfa)?;
    let start = start_pair(alloc, nfa)?;
    put(alloc, nfa, limit, states, &dead)?;
    put(alloc, nfa, limit, states, &start)?;
    Ok(())
}

/// A copy of state `q`.
pub fn state_at(alloc: Global, states: &IndexSet<Pair>, q: usize) -> Result<Pair, AllocError>
    requires { q < length states.now.keys }
    ensures { IfOk result (λ p. slice_get states.now.keys q ≡ Some p) }
{
    let state = &states.as_slice()[q];
    let phase = state.phase;
    let set = List::from_slice(alloc, state.set.as_slice())?;
    Ok(Pair { phase, set })
}

/// Takes the letters of state `q`.
fn take_state(
    alloc: Global,
    nfa: &Nfa,
    limit: u32,
    states: &mut IndexSet<Pair>,
    q: usize,
    room: Vec<u64>,
) -> Result<Vec<u64>, BuildFault>
    requires state { (q < length states.old.keys) × (states.old.keys ≡ explored (alphabet nfa.now) q) }
    requires small { length states.old.keys ≤ limit }
    requires room { length room.items ≡ words_for (count (alphabet nfa.now)) }
    ensures numbers { OnOk result (states.new.keys ≡ explored (alphabet nfa.now) (q + 1)) }
    ensures grows { OnOk result (length states.old.keys ≤ length states.new.keys) }
    ensures within { OnOk result (length states.new.keys ≤ limit) }
    ensures room { IfOk result (λ r. length r.items ≡ words_for (count (alphabet nfa.now))) }
    ensures too_large { IfErr result (λ e. (l : ℕ) → e ≡ BuildFault.TooLarge l → (l ≡ limit) × IsPastLimit (alphabet nfa.now) limit) }
{
    let state = state_at(alloc, states, q)?;
    let room = take_letters(alloc, nfa, limit, states, &state, room)?;
    Ok(room)
}

/// Takes the letters of every state, in the order of their numbers.
fn take_states(
    alloc: Global,
    nfa: &Nfa,
    limit: u32,
    states: &mut IndexSet<Pair>,
) -> Result<(), BuildFault>
    requires first { states.old.keys ≡ explored (alphabet nfa.now) 0 }
    requires small { length states.old.keys ≤ limit }
    ensures numbering { OnOk result (IsNumbering (alphabet nfa.now) states.new.keys) }
    ensures within { OnOk result (length states.new.keys ≤ limit) }
    ensures too_large { IfErr result (λ e. (l : ℕ) → e ≡ BuildFault.TooLarge l → (l ≡ limit) × IsPastLimit (alphabet nfa.now) limit) }
{
    let mut room = empty_words(alloc, nfa)?;
    let mut q = 0;
    while q < states.len() {
        room = take_state(alloc, nfa, limit, states, q, room)?;
        q += 1;
    }
    Ok(())
}

/// The family of a wheel's set automaton: its states in the order of their numbers.
///
/// State 0 is the empty set and state 1 the start. The letters of the states are taken in the order of the states' numbers, and those
/// of one state in the order of their columns: a state that has no number gets the next one.
///
/// # Errors
/// `TooLarge` where the family has more states than the limit that holds: the least of the given one, of 65,535, and of 8,388,608 by
/// the words of a set and by the columns of a row. It carries that limit. Want of memory.
pub fn build(alloc: Global, nfa: &Nfa, limit: u32) -> Result<Automaton, BuildFault>
    ensures family { IfOk result (λ a. (w : Parts) → IsAlphabetOf w (alphabet nfa.now) → IsLeastFamily (alphabet nfa.now) (states_of a)) }
    ensures numbering { IfOk result (λ a. IsNumbering (alphabet nfa.now) (states_of a)) }
    ensures within { IfOk result (λ a. length (states_of a) ≤ effective_limit (alphabet nfa.now) limit) }
    ensures not_more { OnOk result ((w : Parts) → IsAlphabetOf w (alphabet nfa.now)
        → ¬ HasMore (alphabet nfa.now) (effective_limit (alphabet nfa.now) limit)) }
    ensures too_large { IfErr result (λ e. (l : ℕ) → e ≡ BuildFault.TooLarge l → (l ≡ effective_limit (alphabet nfa.now) limit)
        × ((w : Parts) → IsAlphabetOf w (alphabet nfa.now) → HasMore (alphabet nfa.now) l)) }
{
    let most = limit_of(nfa, limit);
    let mut states = IndexSet::new(alloc);
    first_states(alloc, nfa, most, &mut states)?;
    take_states(alloc, nfa, most, &mut states)?;
    Ok(Automaton { states })
}
