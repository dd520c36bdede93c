//! The numbers of states.
ghost use Rattle.std.specs.Prelude.{◌≡◌, ℕ, ◌≤◌, ◌<◌, Some, slice_get, length, OnOk, IfErr, IfOk};
ghost use Rattle.position_nfa.specs.Views.{alphabet};
ghost use Rattle.position_nfa.specs.Families.{numbered};
ghost use Rattle.subset_build.specs.Families.{IsFull};

use crate::fault::BuildFault;
use indexmap::IndexSet;
use position_nfa::{Nfa, Pair};
use std::alloc::Global;
use wheel_types::List;

/// The number of a state, which goes to the end of the list where it is not there. Only a new state is copied.
///
/// # Errors
/// `TooLarge` where the state is a new one and the list has as many as the limit; want of memory.
pub fn put(
    alloc: Global,
    nfa: &Nfa,
    limit: u32,
    states: &mut IndexSet<Pair>,
    pair: &Pair,
) -> Result<usize, BuildFault>
    requires { length states.old.keys ≤ limit }
    ensures ok { OnOk result (states.new.keys ≡ numbered (alphabet nfa.now) states.old.keys pair.now) }
    ensures within { OnOk result (length states.new.keys ≤ limit) }
    ensures number { IfOk result (λ n. slice_get states.new.keys n ≡ Some pair.now) }
    ensures below { IfOk result (λ n. n < length states.new.keys) }
    ensures too_large { IfErr result (λ e. (l : ℕ) → e ≡ BuildFault.TooLarge l → (l ≡ limit) × IsFull states.old.keys limit pair.now) }
{
    if let Some(number) = states.get_index_of(pair) {
        return Ok(number);
    }
    if states.len() >= limit as usize {
        return Err(BuildFault::TooLarge { limit });
    }
    let phase = pair.phase;
    let set = List::from_slice(alloc, pair.set.as_slice())?;
    let (number, _) = states.insert_full(Pair { phase, set })?;
    Ok(number)
}
