//! Certificates of reports, checked step by step.
#![tactic(auto)]

mod basis;
mod fault;
mod instant;
mod laws;
mod lines;
mod rule;
mod steps;
mod walks;
mod whole;

pub use fault::CheckFault;
pub use laws::{
    exact_certificates_are_valid, exact_certificates_exist, valid_is_answered_yes,
    valid_reports_are_right,
};
pub use rule::{Answer, Rule};
pub use whole::check;
