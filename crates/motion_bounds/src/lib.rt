//! The limits that a wheel sets on speed, and on the ratio of two speeds that follow each other.
#![tactic(auto)]

mod bounds;
mod laws;

pub use bounds::{greatest_time, keeps_ratio, keeps_speed, least_time, ratio_ok, speed_ok};
pub use laws::{times_are_between, times_fit};
