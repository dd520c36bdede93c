//! Commands over the table of a wheel: the states of its set automaton, and where its letters lead.
#![tactic(auto)]

mod laws;
mod load;
mod sizes;
mod states;

pub use laws::{one_size, sizes_end};
pub use sizes::size;
pub use states::count_states;
