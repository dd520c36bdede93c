//! The commands `stim` and `self`: a file gets a stimulus of a wheel, or a stimulus is stepped through the set of the wheel's places.
#![tactic(auto)]

mod counts;
mod laws;
mod stim;
mod stimuli;
mod tested;

pub use counts::Counts;
pub use laws::{no_self_is_lost, selfs_end, stims_end};
pub use stim::stim_file;
pub use tested::self_test;
