//! Which places of a wheel stand, and what angles have to say of walks over them.
#![tactic(auto)]

mod angles;
mod fault;
mod first_edges;
mod laws;
mod order;
mod places;
mod span;
mod standing;

pub use fault::PlaceFault;
pub use laws::{angle_law, one_named_motion, wheels_have_places};
pub use order::is_less;
pub use places::all_places;
pub use standing::stands;
