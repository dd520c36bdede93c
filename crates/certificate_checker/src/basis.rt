//! What a checker keeps of a wheel.
use edge_angles::Edges;
use plain_motion::PlainSet;
use wheel_types::{List, Place};

/// A wheel's edges, its places, ascending, and a set of them before any instant.
#[derive(Drop)]
pub struct Basis {
    pub edges: Edges,
    pub places: List<Place>,
    pub fresh: PlainSet,
}
