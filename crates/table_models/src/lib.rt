//! The models of a replay: the table of a wheel file's wheel, or the table that an image holds.
#![tactic(auto)]

mod load;
mod sound;

pub use load::load_image;
pub use sound::sound_image;
