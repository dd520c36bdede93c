//! The limit on states.
ghost use Rattle.std.specs.Prelude.{◌≡◌};
ghost use Rattle.position_nfa.specs.Views.{alphabet};
ghost use Rattle.subset_build.specs.Limit.{effective_limit};

use position_nfa::{Nfa, width};

/// No automaton has more states, so that two bytes hold a number.
const MOST_STATES: u32 = 65_535;

/// The sets of all states have no more words together, nor have their rows more entries.
const MOST_CELLS: usize = 8_388_608;

/// The limit on states that holds where this one is given.
pub fn limit_of(nfa: &Nfa, given: u32) -> u32
    ensures { result ≡ effective_limit (alphabet nfa.now) given }
{
    let by_sets = MOST_CELLS / nfa.words();
    let by_rows = MOST_CELLS / width(nfa);
    given.min(MOST_STATES).min(by_sets.min(by_rows) as u32)
}
