//! The family with its rows: for each state and column the number of the state that the letter leads to.
ghost use Rattle.std.specs.Prelude.{◌≡◌, ℕ, ◌≤◌, ◌<◌, ◌+◌, ◌*◌, Some, slice_get, length, IfOk, IfErr, OnOk};
ghost use Rattle.wheel_types.specs.declared.parts.WheelParts.{WheelParts as Parts};
ghost use Rattle.place_words.specs.Words.{IsSet, words_for};
ghost use Rattle.position_nfa.specs.Step.{dead_state};
ghost use Rattle.position_nfa.specs.Alphabets as alphabets;
ghost use Rattle.position_nfa.specs.Alphabets.{IsAlphabetOf, count};
ghost use Rattle.position_nfa.specs.Families.{IsLeastFamily, IsNumbering, explored, taken};
ghost use Rattle.position_nfa.specs.Sound.{AreDue};
ghost use Rattle.position_nfa.specs.Views.{alphabet};
ghost use Rattle.subset_build.specs.Families.{IsPastLimit, HasMore, FillsUp};
ghost use Rattle.subset_build.specs.Limit.{effective_limit, most_states};
ghost use Rattle.subset_build.specs.Views.{table_states, table_rows};

use crate::family::{empty_words, first_states, state_at};
use crate::fault::BuildFault;
use crate::letters::take_letter;
use crate::limit::limit_of;
use crate::table::Table;
use indexmap::IndexSet;
use position_nfa::{Nfa, Pair, width};
use std::alloc::Global;

/// Takes the letters of state `q`, which has this number, and adds its row.
fn row_letters(
    alloc: Global,
    nfa: &Nfa,
    limit: u32,
    states: &mut IndexSet<Pair>,
    q: &Pair,
    number: usize,
    room: Vec<u64>,
    rows: &mut Vec<u16>,
) -> Result<Vec<u64>, BuildFault>
    requires most { limit ≤ most_states }
    requires small { length states.old.keys ≤ limit }
    requires dead { slice_get states.old.keys 0 ≡ Some (dead_state (alphabet nfa.now)) }
    requires state { slice_get states.old.keys number ≡ Some q.now }
    requires set { IsSet (count (alphabet nfa.now)) q.now.set }
    requires room { length room.items ≡ words_for (count (alphabet nfa.now)) }
    requires rows { AreDue (alphabet nfa.now) states.old.keys rows.old.items }
    requires long { length rows.old.items ≡ number * alphabets.width (alphabet nfa.now) }
    ensures numbers { OnOk result (states.new.keys ≡ taken (alphabet nfa.now) states.old.keys q.now (alphabets.width (alphabet nfa.now))) }
    ensures within { OnOk result (length states.new.keys ≤ limit) }
    ensures room { IfOk result (λ r. length r.items ≡ words_for (count (alphabet nfa.now))) }
    ensures rows { OnOk result (AreDue (alphabet nfa.now) states.new.keys rows.new.items) }
    ensures long { OnOk result (length rows.new.items ≡ (number + 1) * alphabets.width (alphabet nfa.now)) }
    ensures too_large { IfErr result (λ e. (l : ℕ) → e ≡ BuildFault.TooLarge l
        → (l ≡ limit) × FillsUp (alphabet nfa.now) states.old.keys limit q.now) }
{
    let mut room = room;
    for column in 0..width(nfa) {
        let (next, to) = take_letter(alloc, nfa, limit, states, q, column, room)?;
        rows.push(to as u16)?;
        room = next;
    }
    Ok(room)
}

/// Takes the letters of state `q`, and adds its row.
fn row_state(
    alloc: Global,
    nfa: &Nfa,
    limit: u32,
    states: &mut IndexSet<Pair>,
    q: usize,
    room: Vec<u64>,
    rows: &mut Vec<u16>,
) -> Result<Vec<u64>, BuildFault>
    requires most { limit ≤ most_states }
    requires state { (q < length states.old.keys) × (states.old.keys ≡ explored (alphabet nfa.now) q) }
    requires small { length states.old.keys ≤ limit }
    requires room { length room.items ≡ words_for (count (alphabet nfa.now)) }
    requires rows { AreDue (alphabet nfa.now) states.old.keys rows.old.items }
    requires long { length rows.old.items ≡ q * alphabets.width (alphabet nfa.now) }
    ensures numbers { OnOk result (states.new.keys ≡ explored (alphabet nfa.now) (q + 1)) }
    ensures grows { OnOk result (length states.old.keys ≤ length states.new.keys) }
    ensures within { OnOk result (length states.new.keys ≤ limit) }
    ensures room { IfOk result (λ r. length r.items ≡ words_for (count (alphabet nfa.now))) }
    ensures rows { OnOk result (AreDue (alphabet nfa.now) states.new.keys rows.new.items) }
    ensures long { OnOk result (length rows.new.items ≡ (q + 1) * alphabets.width (alphabet nfa.now)) }
    ensures too_large { IfErr result (λ e. (l : ℕ) → e ≡ BuildFault.TooLarge l → (l ≡ limit) × IsPastLimit (alphabet nfa.now) limit) }
{
    let state = state_at(alloc, states, q)?;
    let room = row_letters(alloc, nfa, limit, states, &state, q, room, rows)?;
    Ok(room)
}

/// The rows of every state, in the order of their numbers.
fn row_states(
    alloc: Global,
    nfa: &Nfa,
    limit: u32,
    states: &mut IndexSet<Pair>,
) -> Result<Vec<u16>, BuildFault>
    requires most { limit ≤ most_states }
    requires first { states.old.keys ≡ explored (alphabet nfa.now) 0 }
    requires small { length states.old.keys ≤ limit }
    ensures numbering { OnOk result (IsNumbering (alphabet nfa.now) states.new.keys) }
    ensures within { OnOk result (length states.new.keys ≤ limit) }
    ensures rows { IfOk result (λ rows. AreDue (alphabet nfa.now) states.new.keys rows.items) }
    ensures long { IfOk result (λ rows. length rows.items ≡ length states.new.keys * alphabets.width (alphabet nfa.now)) }
    ensures too_large { IfErr result (λ e. (l : ℕ) → e ≡ BuildFault.TooLarge l → (l ≡ limit) × IsPastLimit (alphabet nfa.now) limit) }
{
    let mut room = empty_words(alloc, nfa)?;
    let mut rows = Vec::new(alloc);
    let mut q = 0;
    while q < states.len() {
        room = row_state(alloc, nfa, limit, states, q, room, &mut rows)?;
        q += 1;
    }
    Ok(rows)
}

/// The family of a wheel's set automaton as `build` gives it, with the rows of its states.
///
/// # Errors
/// As `build`.
pub fn build_table(alloc: Global, nfa: &Nfa, limit: u32) -> Result<Table, BuildFault>
    ensures family { IfOk result (λ t. (w : Parts) → IsAlphabetOf w (alphabet nfa.now) → IsLeastFamily (alphabet nfa.now) (table_states t)) }
    ensures numbering { IfOk result (λ t. IsNumbering (alphabet nfa.now) (table_states t)) }
    ensures rows { IfOk result (λ t. AreDue (alphabet nfa.now) (table_states t) (table_rows t)) }
    ensures long { IfOk result (λ t. length (table_rows t) ≡ length (table_states t) * alphabets.width (alphabet nfa.now)) }
    ensures within { IfOk result (λ t. length (table_states t) ≤ effective_limit (alphabet nfa.now) limit) }
    ensures not_more { OnOk result ((w : Parts) → IsAlphabetOf w (alphabet nfa.now)
        → ¬ HasMore (alphabet nfa.now) (effective_limit (alphabet nfa.now) limit)) }
    ensures too_large { IfErr result (λ e. (l : ℕ) → e ≡ BuildFault.TooLarge l → (l ≡ effective_limit (alphabet nfa.now) limit)
        × ((w : Parts) → IsAlphabetOf w (alphabet nfa.now) → HasMore (alphabet nfa.now) l)) }
{
    let most = limit_of(nfa, limit);
    let mut states = IndexSet::new(alloc);
    first_states(alloc, nfa, most, &mut states)?;
    let rows = row_states(alloc, nfa, most, &mut states)?;
    Ok(Table { states, rows })
}
