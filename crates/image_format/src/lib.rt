//! A view of a compiled wheel's image, which only bytes that keep every rule of the layout have.
//!
//! `View::verify` tests the bytes in the order of the rules. `specs/Walk` says how instants are stepped through an image's table.
#![tactic(auto)]

mod cuts;
mod header;
mod kinds;
mod length;
mod members;
mod padding;
mod places;
mod rows;
mod slots;
mod view;

pub use image_layout::{ImageFault, ImageParts, Kind, write_image};
pub use view::View;
