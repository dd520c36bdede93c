//! Sessions over an image: the report of a capture, instant by instant, by the walk of the image's own rows.
//!
//! The plain set of `plain_motion` steps sets of places and answers the same verdicts over a sound image; a session reads a table, and
//! answers for every table that a view holds, whatever its entries say. With a model of its image, one that an audit found sound, it also
//! makes the exact certificate's lines.
#![tactic(auto)]

mod counts;
mod cover;
mod laws;
mod session;
mod starts;

pub use laws::sound_lines_are_whole;
pub use session::Session;
