//! What a stimulus is drawn from.

use edge_angles::Edges;

/// What a stimulus is drawn from, beside its wheel.
#[derive(Debug, Drop)]
pub struct Plan {
    /// The wheel's edges.
    pub edges: Edges,
    /// The seed of its generators.
    pub seed: u64,
    /// How many gaps of the crank it has.
    pub gaps: u32,
}
