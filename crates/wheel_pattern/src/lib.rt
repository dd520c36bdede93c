//! Wheel files, and the slot tables of C sources.
#![tactic(auto)]

mod fault;
mod keys;
mod laws;
mod lookups;
mod numbers;
mod print;
mod print_laws;
mod read;
mod tooth_pattern;

pub use c_tables::{TableFault, read_table, sources_are_laid, tokens_are_pieces};
pub use fault::PatternFault;
pub use keys::Key;
pub use laws::{files_have_one_meaning, first_keys_are_told};
pub use print::write_wheel;
pub use print_laws::written_wheels_read_back;
pub use read::read_wheel;
