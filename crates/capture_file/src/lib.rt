//! A capture's bytes, read whole in whichever form they have: a value change dump or CSV.
#![tactic(auto)]

mod read;

pub use read::read_capture;
