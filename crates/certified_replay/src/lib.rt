//! The command `replay` with a certificate: the report on `out`, and beside it its exact certificate in a file, line after line.
#![tactic(auto)]

mod closing;
mod laws;
mod lines;
mod open;
mod put;
mod replay;
mod whole;

pub use closing::{Ended, close, without_tails};
pub use laws::own_certificates_are_not_denied;
pub use open::{open_file, take_capture};
pub use replay::replay_certified;
pub use whole::put_line;
