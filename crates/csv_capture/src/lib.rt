//! An exact reader of captures in CSV.
#![tactic(auto)]

mod columns;
mod digits;
mod field;
mod laws;
mod read;
mod records;
mod row;
mod rows;
mod stamp;
mod time;

pub use laws::stamps_rise;
pub use read::read_csv;
