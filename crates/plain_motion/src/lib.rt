//! Sets of places, stepped once for each instant: what the edges prove about an engine's position.
#![tactic(auto)]

mod ends;
mod laws;
mod least;
mod set;
mod window;
mod windows;

pub use cam_ranges::PlaceFault;
pub use laws::{
    ends_are_steps, one_kind, one_verdict, one_window, start_and_end, verdicts_are_one,
    verdicts_exist,
};
pub use set::PlainSet;
