//! Captures of any form: levels at times, and the instants of their changes.
#![tactic(auto)]

mod capture;
mod digits;
mod laws;
mod levels;

pub use capture::{Capture, Column, CsvFault, End, Given, Names, Stamp, VcdFault, Watch};
pub use digits::{LAST_TIME, all_digits, is_digit, number_within};
pub use laws::{instants_are_changes, instants_rise, longer_begin_alike};
pub use levels::Levels;
