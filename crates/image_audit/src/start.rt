//! The set of the start.
ghost use Rattle.std.specs.Prelude.{◌≡◌, ◌<◌, IfOk, OnOk, IfErr, length};
ghost use Rattle.image_layout.specs.Layout.{state_total};
ghost use Rattle.image_layout.specs.Tables.{KeepsLayout};
ghost use Rattle.position_nfa.specs.Alphabets.{count};
ghost use Rattle.position_nfa.specs.Sets.{all_places};
ghost use Rattle.position_nfa.specs.Views.{alphabet};
ghost use Rattle.place_words.specs.Words.{words_for};
ghost use Rattle.table_images.specs.Images.{set_at};
ghost use Rattle.image_audit.specs.Agreements.{AgreesInLists, AgreesInStart};
ghost use Rattle.image_audit.specs.Differences.{IsFirst};

use audit_faults::AuditFault;
use image_format::View;
use position_nfa::Nfa;
use std::alloc::{AllocError, Global};

/// Words of zeros for one set.
pub fn empty_words(alloc: Global, nfa: &Nfa) -> Result<Vec<u64>, AllocError>
    ensures { IfOk result (λ words. length words.items ≡ words_for (count (alphabet nfa.now))) }
{
    let mut words = Vec::new(alloc);
    for _ in 0..nfa.words() {
        words.push(0)?;
    }
    Ok(words)
}

/// The set of state 1 is this one, which has all places.
fn check_set(nfa: &Nfa, view: &View<'_>, all: &[u64]) -> Result<(), AuditFault>
    requires layout { KeepsLayout view.now.bytes.now }
    requires lists { AgreesInLists (alphabet nfa.now) view.now.bytes.now }
    requires all { all.now ≡ all_places (alphabet nfa.now) }
    ensures same { OnOk result (AgreesInStart (alphabet nfa.now) view.now.bytes.now) }
    ensures first { IfErr result (IsFirst (alphabet nfa.now) view.now.bytes.now) }
{
    for word in 0..view.words() {
        let found = view.member(1, word);
        let due = all[word as usize];
        if found != due {
            return Err(AuditFault::Start { word, found, due });
        }
    }
    Ok(())
}

/// State 1 has all places.
pub fn check_start(alloc: Global, nfa: &Nfa, view: &View<'_>) -> Result<(), AuditFault>
    requires layout { KeepsLayout view.now.bytes.now }
    requires lists { AgreesInLists (alphabet nfa.now) view.now.bytes.now }
    ensures same { OnOk result (AgreesInStart (alphabet nfa.now) view.now.bytes.now) }
    ensures first { IfErr result (IsFirst (alphabet nfa.now) view.now.bytes.now) }
{
    let mut words = empty_words(alloc, nfa)?;
    nfa.start(words.as_mut_slice());
    check_set(nfa, view, words.as_slice())
}
