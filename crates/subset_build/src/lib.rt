//! The family of a wheel's set automaton: every phase and set of places that some word of letters reaches, each once, with its number.
#![tactic(auto)]

mod automaton;
mod family;
mod fault;
mod letters;
mod limit;
mod put;
mod rows;
mod table;

pub use automaton::Automaton;
pub use family::build;
pub use fault::BuildFault;
pub use rows::build_table;
pub use table::Table;
