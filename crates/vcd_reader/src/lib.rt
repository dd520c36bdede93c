//! Value change dumps, read in pieces.
#![tactic(auto)]

mod changes;
mod fault;
mod laws;
mod machine;
mod phase;
mod reader;
mod stage;
mod stream;
mod token;
mod waiting;

pub use fault::FeedFault;
pub use laws::{
    all_are_taken, dumps_are_captures, more_bytes_change_nothing, times_rise, tokens_are_runs,
    tokens_of_joined,
};
pub use reader::VcdReader;
