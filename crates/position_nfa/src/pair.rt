//! States of the set automaton.

use wheel_types::List;

/// A state: a phase and a set of places.
#[derive(Debug, Drop, PartialEq, Eq, Hash)]
pub struct Pair {
    /// From 0 to 5; 0 where the set is empty.
    pub phase: u8,
    /// Bit `i` of word `k` is whether place `64 * k + i` is in the set.
    pub set: List<u64>,
}
