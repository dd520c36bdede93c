//! The states of a wheel's table.
ghost use Rattle.std.specs.Prelude.{◌≡◌, ◌⊎◌, IfOk, IfErr, OnOk, length};
ghost use Rattle.run_ends.specs.Works.{StopsJudge};
ghost use Rattle.position_nfa.specs.Alphabets.{IsAlphabetOf, wheel};
ghost use Rattle.position_nfa.specs.Views.{alphabet};
ghost use Rattle.table_commands.specs.States.{CountsStates, HasFewStates, FamilyGives};

use position_nfa::Nfa;
use run_ends::{Cause, Limit};
use std::alloc::Global;
use subset_build::{BuildFault, build};

/// The limit on states that is given: a table numbers its states by two bytes.
const MOST_STATES: u32 = 65_535;

/// How many states a wheel's table has.
///
/// # Errors
/// `Limit::States` with the limit that holds, where the family has more states than that; `Memory`.
pub fn count_states(alloc: Global, nfa: &Nfa) -> Result<u32, Cause>
    requires own { IsAlphabetOf (wheel (alphabet nfa.now)) (alphabet nfa.now) }
    ensures counts { IfOk result (λ count. CountsStates (alphabet nfa.now) count) }
    ensures few { OnOk result (HasFewStates (wheel (alphabet nfa.now))) }
    ensures kinds { IfErr result (StopsJudge (FamilyGives (wheel (alphabet nfa.now)))) }
{
    match build(alloc, nfa, MOST_STATES) {
        Ok(automaton) => Ok(automaton.count()),
        Err(BuildFault::TooLarge { limit }) => Err(Cause::Limit(Limit::States { limit })),
        Err(BuildFault::Memory) => Err(Cause::Memory),
    }
}
