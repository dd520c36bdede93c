//! The legal steps of a wheel's places: which edges pass in an instant, and what the gaps between crank edges allow.
#![tactic(auto)]

mod gaps;
mod motions;
mod passes;
mod times;

pub use motions::Motions;
pub use times::CrankTimes;
