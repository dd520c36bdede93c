//! Wheels and instants from the texts of rows.
#![tactic(auto)]

mod instants;
mod parts;

pub use instants::{instant_of, instants_of};
pub use parts::{numbers_of, parts_of};
