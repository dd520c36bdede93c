//! Files and streams as traits. A [`Shelf`] is a set of named files, and a [`Sink`] takes bytes. Both count their faults,
//! and contracts say when a count rises.
#![tactic(auto)]

mod fault;
mod shelf;
mod sink;

pub use fault::IoFault;
pub use shelf::{Shelf, Way};
pub use sink::Sink;
