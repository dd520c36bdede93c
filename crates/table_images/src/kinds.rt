//! What the sets of states say of the engine's position.
ghost use Rattle.std.specs.Prelude.{◌≡◌, ℕ, IfOk, MatchOption, length};
ghost use Rattle.place_words.specs.Words.{IsSet};
ghost use Rattle.position_nfa.specs.Alphabets.{count};
ghost use Rattle.position_nfa.specs.Sound.{IsMember, IsElsewhere, IsLeast, SetSays};
ghost use Rattle.position_nfa.specs.Views.{alphabet};
ghost use Rattle.subset_build.specs.Views.{table_states};
ghost use Rattle.table_images.specs.Kinds.{says_of, AreSets, KindsSayTo};

use image_layout::Kind;
use position_nfa::Nfa;
use std::alloc::{AllocError, Global};
use subset_build::Table;

/// The number of the least member of a set, where it has one.
fn least_member(nfa: &Nfa, set: &[u64]) -> Option<u32>
    requires set { IsSet (count (alphabet nfa.now)) set.now }
    ensures { MatchOption result ((i : ℕ) → IsMember (alphabet nfa.now) set.now i → ⊥) (λ e. IsLeast (IsMember (alphabet nfa.now) set.now) e) }
{
    for i in 0..nfa.place_count() {
        if place_words::contains(set, i as usize) {
            return Some(i);
        }
    }
    None
}

/// The number of the least member at another position than `j`, where there is one.
fn least_elsewhere(nfa: &Nfa, set: &[u64], j: u32) -> Option<u32>
    requires set { IsSet (count (alphabet nfa.now)) set.now }
    ensures { MatchOption result ((i : ℕ) → IsElsewhere (alphabet nfa.now) set.now j i → ⊥) (λ f. IsLeast (IsElsewhere (alphabet nfa.now) set.now j) f) }
{
    for i in 0..nfa.place_count() {
        if place_words::contains(set, i as usize) && nfa.place(i).j != j {
            return Some(i);
        }
    }
    None
}

/// What a set says: the position that all its members have, or else its least member and the least one at another position.
pub fn kind_of(nfa: &Nfa, set: &[u64]) -> Kind
    requires set { IsSet (count (alphabet nfa.now)) set.now }
    ensures { SetSays (alphabet nfa.now) set.now (says_of result) }
{
    let Some(e) = least_member(nfa, set) else {
        return Kind::Dead;
    };
    let j = nfa.place(e).j;
    match least_elsewhere(nfa, set, j) {
        None => Kind::At { j },
        Some(f) => Kind::Open { e, f },
    }
}

/// The kinds of a table's states.
pub fn state_kinds(alloc: Global, nfa: &Nfa, table: &Table) -> Result<Vec<Kind>, AllocError>
    requires { AreSets (alphabet nfa.now) (table_states table.now) }
    ensures { IfOk result (λ kinds. KindsSayTo (alphabet nfa.now) (table_states table.now) (length (table_states table.now)) kinds.items) }
{
    let mut kinds = Vec::new(alloc);
    for q in 0..table.count() {
        kinds.push(kind_of(nfa, table.state(q).set.as_slice()))?;
    }
    Ok(kinds)
}
