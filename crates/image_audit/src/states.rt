//! The states of an image, by their phases and sets.
ghost use Rattle.std.specs.Prelude.{◌≡◌, ◌<◌, ◌^◌, All, IfOk, IfErr, OnOk, Some, length, slice_get};
ghost use Rattle.image_layout.specs.Layout.{state_total};
ghost use Rattle.image_layout.specs.Fields.{phase_at};
ghost use Rattle.image_layout.specs.Tables.{KeepsLayout};
ghost use Rattle.position_nfa.specs.Alphabets.{count};
ghost use Rattle.position_nfa.specs.Views.{alphabet};
ghost use Rattle.position_nfa.specs.Step.{phase_of};
ghost use Rattle.place_words.specs.Words.{IsSet};
ghost use Rattle.table_images.specs.Images.{set_at, table_of};
ghost use Rattle.table_images.specs.Kinds.{AreSets};
ghost use Rattle.image_audit.specs.Agreements.{named, AgreesInStart, AgreesInStates};
ghost use Rattle.image_audit.specs.Differences.{IsFirst};

use audit_faults::AuditFault;
use image_format::View;
use indexmap::IndexSet;
use position_nfa::{Nfa, Pair};
use std::alloc::{AllocError, Global};
use wheel_types::List;

/// The words of the set of state `q`.
fn set_words(alloc: Global, view: &View<'_>, q: u32) -> Result<Vec<u64>, AllocError>
    requires { q < state_total view.now.bytes.now }
    ensures { IfOk result (λ words. words.items ≡ set_at view.now.bytes.now q) }
{
    let mut words = Vec::new(alloc);
    for word in 0..view.words() {
        words.push(view.member(q, word))?;
    }
    Ok(words)
}

/// The phase of state `q`, and 0 where its set is empty.
#[tactic(auto, using(crate::proofs::SetLaws::phase_small))]
fn state_phase(view: &View<'_>, q: u32, set: &[u64]) -> u8
    requires layout { KeepsLayout view.now.bytes.now }
    requires there { q < state_total view.now.bytes.now }
    ensures phase { result ≡ phase_of (phase_at view.now.bytes.now q) set.now }
    ensures fits { All (λ w. w < 2 ^ 64) set.now }
{
    if place_words::is_empty(set) {
        0
    } else {
        view.phase(q) as u8
    }
}

/// State `q`, where the empty sets of all phases are one.
fn state(alloc: Global, nfa: &Nfa, view: &View<'_>, q: u32) -> Result<Pair, AllocError>
    requires layout { KeepsLayout view.now.bytes.now }
    requires started { AgreesInStart (alphabet nfa.now) view.now.bytes.now }
    requires there { q < state_total view.now.bytes.now }
    ensures state { IfOk result (λ state. state ≡ named view.now.bytes.now q) }
    ensures set { IfOk result (λ state. IsSet (count (alphabet nfa.now)) state.set) }
{
    let words = set_words(alloc, view, q)?;
    let phase = state_phase(view, q, words.as_slice());
    Ok(Pair {
        phase,
        set: List::from_vec(words),
    })
}

/// The state of a number.
pub fn numbered(states: &IndexSet<Pair>, q: u32) -> &Pair
    requires { q < length states.now.keys }
    ensures { slice_get states.now.keys q ≡ Some result.now }
{
    &states.as_slice()[q as usize]
}

/// The states by their numbers, each a different one.
pub fn number_states(
    alloc: Global,
    nfa: &Nfa,
    view: &View<'_>,
) -> Result<IndexSet<Pair>, AuditFault>
    requires layout { KeepsLayout view.now.bytes.now }
    requires started { AgreesInStart (alphabet nfa.now) view.now.bytes.now }
    ensures once { OnOk result (AgreesInStates (alphabet nfa.now) view.now.bytes.now) }
    ensures states { IfOk result (λ states. states.keys ≡ (table_of view.now.bytes.now).states) }
    ensures sets { IfOk result (λ states. AreSets (alphabet nfa.now) states.keys) }
    ensures first { IfErr result (IsFirst (alphabet nfa.now) view.now.bytes.now) }
{
    let mut states = IndexSet::new(alloc);
    for q in 0..view.state_count() {
        let state = state(alloc, nfa, view, q)?;
        let (first, is_new) = states.insert_full(state)?;
        if !is_new {
            let first = first as u32;
            return Err(AuditFault::Twice { first, state: q });
        }
    }
    Ok(states)
}
