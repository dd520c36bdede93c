//! The machine's verdicts.

/// What the machine says of an instant: the kind of the state that its letters reach.
#[derive(Clone, Copy, Debug, PartialEq, Eq)]
pub enum MachineVerdict {
    /// The last crank edge passed is edge `j`.
    At { j: u32 },
    /// The numbers of two of the image's places. Their positions differ, and `e` is below `f`.
    Open { e: u32, f: u32 },
    /// A letter led to state 0.
    Lost,
}
