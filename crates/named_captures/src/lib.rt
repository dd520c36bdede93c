//! Captures by the names that options give to their columns and signals.
#![tactic(auto)]

mod named;

pub use named::{load_clean, load_named, read_named};
