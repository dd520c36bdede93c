//! The command `check`: whether a certificate is valid for a report of a capture.
#![tactic(auto)]

mod answer;
mod files;

pub use files::check_files;
