//! The files that a command names: what they hold, and for which cause they end a run.
#![tactic(auto)]

mod lines;
mod loads;
mod model;

pub use lines::{load_certificate, load_report};
pub use loads::{ended, load, load_capture, load_table};
pub use model::{Model, load_any_wheel, load_model, load_wheel};
