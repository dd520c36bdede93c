//! The audit of a compiled wheel's image: whether it holds its own wheel's table, or the first place where it does not.
//!
//! Nobody has to trust who made an image: `audit` compares it with the wheel that it holds, part by part, state by state and letter by
//! letter. `specs/Differences` says what it looks for and in which order.
#![tactic(auto)]

mod kinds;
mod lists;
mod reach;
mod rows;
mod sound;
mod start;
mod states;

pub use audit_faults::AuditFault;
pub use sound::{Sound, audit};
