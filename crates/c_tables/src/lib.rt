//! The slot tables of C sources, and the line of a wheel file that lists one.
#![tactic(auto)]

mod array;
mod body;
mod fault;
mod slots;
mod table;
mod token_laws;
mod tokens;

pub use fault::TableFault;
pub use slots::slots_line;
pub use table::read_table;
pub use token_laws::{sources_are_laid, tokens_are_pieces};
