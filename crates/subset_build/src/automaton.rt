//! The states of a set automaton.
ghost use Rattle.std.specs.Prelude.{◌≡◌, ◌≤◌, length};
ghost use Rattle.subset_build.specs.Limit.{most_states};

use indexmap::IndexSet;
use position_nfa::Pair;

/// The states of a wheel's set automaton by their numbers, 65,535 at most: state 0 is the empty set, state 1 the start.
#[derive(Drop)]
pub struct Automaton {
    pub(crate) states: IndexSet<Pair>,
    pub ghost few: { length states.keys ≤ most_states },
}

impl Automaton {
    ghost use Rattle.subset_build.specs.Views.{states_of};

    /// How many states there are. It takes no memory.
    pub fn count(&self) -> u32
        ensures { result ≡ length (states_of self.now) }
    {
        self.states.len() as u32
    }
}
