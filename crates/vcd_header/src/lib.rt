//! What the header of a value change dump declares, and the kinds of a dump's words.
#![tactic(auto)]

mod bytes;
mod header;
mod section;
mod sighting;
mod signals;
mod times;
mod timescale;

pub use bytes::{
    all_code_bytes, all_values, is_code, is_end, is_idle, is_keyword, is_value, level_of,
};
pub use header::{HeaderState, section_begun, with_section};
pub use section::{Section, keep_word, word_fits};
pub use sighting::Sighting;
pub use signals::{Missing, Signals, signals_of, wanted_by};
pub use times::{signed, time_of};
