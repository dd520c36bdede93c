//! Wheelsync: what the edges of a crank wheel and of cam wheels prove about an engine's position.
//!
//! `run` serves the words of a command over a shelf of files and two sinks, and does all that the program does. Its contract says
//! that a report is exactly what the permitted motions prove.
#![tactic(auto)]

mod commands;
mod import;
mod laws;
mod put;
mod replay;
mod top;

pub use certified_replay::Ended;
pub use commands::serve;
pub use laws::{certified_lines_are_the_report, imports_end, one_report, replays_end};
pub use pair_certificate::report_line;
pub use put::put_report;
pub use run_ends::Status;
pub use tap_board::{Go, Tap, mark};
pub use top::run;
