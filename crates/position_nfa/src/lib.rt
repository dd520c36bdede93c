//! Letters over sets of places.
#![tactic(auto)]

mod all_walks;
mod ends;
mod laws;
mod masks;
mod nfa;
mod pair;
mod walks;
mod write;

pub use laws::{
    classes_are_limits, classes_have_times, legal_steps_are_one, letters_are_steps,
    other_letters_lead_nowhere, steps_make_sets, time_class_zero_keeps_none,
};
pub use nfa::Nfa;
pub use pair::Pair;
pub use write::{phase_after, width, write_effect, write_nowhere};
