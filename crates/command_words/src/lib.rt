//! The words of a command line.
#![tactic(auto)]

mod numbers;
mod options;
mod spoken;
mod stimuli;
mod words;

pub use numbers::Form;
pub use options::{OptionName, Options};
pub use words::{Command, read_command};
