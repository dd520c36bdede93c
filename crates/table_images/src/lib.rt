//! The image of a wheel: the table of its set automaton, compiled.
#![tactic(auto)]

mod fault;
mod image;
mod kinds;
mod parts;

pub use fault::CompileFault;
pub use image::compile;
pub use kinds::kind_of;
