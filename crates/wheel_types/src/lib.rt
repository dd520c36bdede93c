//! Trigger wheels, and the words in which their edges, motions, places and verdicts are spoken of.
//!
//! A wheel is a table of slots, one bit a channel. Its definitions stand in `specs/`, its laws in `proofs/`.
#![tactic(auto)]

mod channel;
mod fault;
mod instant;
mod list;
mod parts;
mod place;
mod verdict;
mod wheel;

pub use channel::{Channel, Keep, Pol};
pub use fault::{Memory, WheelFault};
pub use instant::{Instant, Shape};
pub use list::List;
pub use parts::WheelParts;
pub use place::Place;
pub use verdict::{Report, Verdict};
pub use wheel::Wheel;
