//! The kept edges of a wheel: their slots, their polarities, and the gaps between those of the crank.
#![tactic(auto)]

mod edges;

pub use edges::{Edges, find_edges};
