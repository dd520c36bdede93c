//! The states of a set automaton with their rows.
ghost use Rattle.std.specs.Prelude.{◌≡◌, ℕ, ◌≤◌, ◌<◌, ◌^◌, Some, length, slice_get, slice_index};
ghost use Rattle.subset_build.specs.Limit.{most_states};

use indexmap::IndexSet;
use position_nfa::Pair;

/// The states of a wheel's set automaton by their numbers, 65,535 at most, and the rows of their letters.
///
/// The rows stand state after state, each with an entry for every column: the number of the state that the letter leads to, and 0
/// where it leads nowhere.
#[derive(Drop)]
pub struct Table {
    pub(crate) states: IndexSet<Pair>,
    pub(crate) rows: Vec<u16>,
    pub ghost few: { length states.keys ≤ most_states },
}

impl Table {
    ghost use Rattle.subset_build.specs.Views.{table_states, table_rows};

    /// How many states there are. It takes no memory.
    pub fn count(&self) -> u32
        ensures { result ≡ length (table_states self.now) }
    {
        self.states.len() as u32
    }

    /// The state of this number. It asks a number below the count. It takes no memory.
    pub fn state(&self, q: u32) -> &Pair
        requires { q < length (table_states self.now) }
        ensures { slice_get (table_states self.now) q ≡ Some result.now }
    {
        &self.states.as_slice()[q as usize]
    }

    /// The rows. It takes no memory.
    pub fn into_rows(self) -> Vec<u16>
        ensures rows { result.items ≡ table_rows self }
        ensures fits { (k : ℕ) → slice_index result.items k < 2 ^ 16 }
    {
        self.rows
    }
}
