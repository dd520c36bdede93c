//! What the states of an image say.

/// What a state of the image says of the engine's position.
#[derive(Clone, Copy, Debug, PartialEq, Eq)]
pub enum Kind {
    /// No motion is left: only state 0 says so.
    Dead,
    /// The last crank edge passed is edge `j`.
    At { j: u32 },
    /// The numbers of two places of different positions, the lesser one first.
    Open { e: u32, f: u32 },
}
