//! The command `compile`: a file gets the image of a wheel's table.
#![tactic(auto)]

mod image;
mod laws;

pub use image::{compile_file, image_of};
pub use laws::compiles_end;
