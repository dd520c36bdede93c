//! The two files of a list of instants: comma-separated values and a value change dump. A channel that keeps both polarities has the levels
//! of its edges; one that keeps a single polarity goes back halfway to its next edge.
#![tactic(auto)]

mod csv;
mod merge;
mod pending;
mod small;
mod text;
mod track;
mod vcd;

pub use csv::write_csv;
pub use small::can_write;
pub use vcd::write_vcd;
