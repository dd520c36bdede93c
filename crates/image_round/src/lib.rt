//! The round trip of an image's parts: what is written of them is an image, and what is read of it are the parts.
#![tactic(auto)]

mod laws;

pub use laws::{
    accepted_images_are_written, images_read_back, kept_parts_are_images,
    kept_parts_can_be_written, parts_are_determined,
};
