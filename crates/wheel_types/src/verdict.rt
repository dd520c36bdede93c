//! What the edges prove of an engine's position.

use crate::{Place, Shape};

/// What the instants of a window prove.
#[derive(Clone, Copy, Debug, PartialEq, Eq)]
pub enum Verdict {
    /// Every permitted motion that gives them ends at crank edge `j`, which is at the start of slot `slot`.
    At { j: u32, slot: u32 },
    /// Permitted motions from the start places `a` and `b` end at different positions.
    Open { a: Place, b: Place },
    /// No permitted motion gives them.
    Lost,
}

/// One line of a report: the instant's number from 1, its time in femtoseconds, its shape and its verdict.
#[derive(Clone, Copy, Debug, PartialEq, Eq)]
pub struct Report {
    pub index: u64,
    pub time: i128,
    pub shape: Shape,
    pub verdict: Verdict,
}
