//! The layout of a compiled wheel's image: where its fields stand, which rules they keep, and the bytes that its parts give.
//!
//! `Sections` shows the layout. The readers here ask bytes of the length that their header tells; who holds bytes of unknown origin takes
//! the view of `image_format`, which tests them.
#![tactic(auto)]

pub mod edges;
mod fault;
pub mod fields;
mod kind;
pub mod measure;
mod parts;
mod sections;
pub mod wheel;
pub mod words;
mod write;

pub use fault::ImageFault;
pub use kind::Kind;
pub use parts::ImageParts;
pub use sections::Sections;
pub use write::write_image;
