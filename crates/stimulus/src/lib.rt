//! Captures of engines that keep the limits of their wheel, drawn from a seed.
#![tactic(auto)]

mod angle;
mod cam;
mod crank;
mod draws;
mod fault;
mod gap;
mod laws;
mod made;
mod maker;
mod plan;

pub use draws::{draw, generator};
pub use fault::StimFault;
pub use laws::{
    first_is_least, never_lost, one_stimulus, polarities_alternate, stimuli_are_writable,
    stimuli_exist,
};
pub use made::{Stimulus, make};
