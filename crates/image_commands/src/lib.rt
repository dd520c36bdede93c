//! The commands `audit` and `trace`: whether an image holds the table of its own wheel, and where the walk of its table stands after each
//! instant of a capture.
#![tactic(auto)]

mod audit;
mod images;
mod laws;
mod line;
mod put;
mod trace;

pub use audit::{audit_file, audit_image};
pub use images::{Watched, view_of, watched_wheel};
pub use laws::{audits_end, traces_end};
pub use trace::trace_file;
