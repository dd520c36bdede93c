//! The machine that walks an image's table over instants, for every image that a view holds.
#![tactic(auto)]

mod classes;
mod machine;
mod steps;
mod verdict;

pub use machine::Machine;
pub use steps::Steps;
pub use verdict::MachineVerdict;
