//! The kinds of an image's states.
ghost use Rattle.std.specs.Prelude.{◌≡◌, OnOk, IfErr};
ghost use Rattle.position_nfa.specs.Views.{alphabet};
ghost use Rattle.table_images.specs.Images.{table_of};
ghost use Rattle.table_images.specs.Kinds.{AreSets};
ghost use Rattle.image_audit.specs.Agreements.{AgreesInStates, AgreesInKinds};
ghost use Rattle.image_audit.specs.Differences.{IsFirst};

use crate::states::numbered;
use audit_faults::AuditFault;
use image_format::View;
use indexmap::IndexSet;
use position_nfa::{Nfa, Pair};
use table_images::kind_of;

/// Each kind says what its state's set says.
pub fn check_kinds(nfa: &Nfa, view: &View<'_>, states: &IndexSet<Pair>) -> Result<(), AuditFault>
    requires agrees { AgreesInStates (alphabet nfa.now) view.now.bytes.now }
    requires states { states.now.keys ≡ (table_of view.now.bytes.now).states }
    requires sets { AreSets (alphabet nfa.now) states.now.keys }
    ensures same { OnOk result (AgreesInKinds (alphabet nfa.now) view.now.bytes.now) }
    ensures first { IfErr result (IsFirst (alphabet nfa.now) view.now.bytes.now) }
{
    for q in 0..view.state_count() {
        let state = numbered(states, q);
        let found = view.kind(q);
        let due = kind_of(nfa, state.set.as_slice());
        if found != due {
            return Err(AuditFault::Kind {
                state: q,
                found,
                due,
            });
        }
    }
    Ok(())
}
