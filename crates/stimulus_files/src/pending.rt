//! The next change of a channel.
ghost use Rattle.std.specs.Prelude.{◌≤◌, ◌^◌, unsigned_abs};

use wheel_types::Pol;

/// An edge of one channel.
#[derive(Clone, Copy)]
pub struct Mark {
    /// When it is, in femtoseconds.
    pub time: i128,
    /// Where the level goes.
    pub polarity: Pol,
    pub ghost small: { unsigned_abs time ≤ 10 ^ 24 },
}

/// A change back, halfway to the next edge.
#[derive(Clone, Copy)]
pub struct Turn {
    /// When it is, in femtoseconds.
    pub time: i128,
    /// The level that the channel goes back to.
    pub level: bool,
    /// The edge after it.
    pub edge: Mark,
}

/// The next change of a channel.
#[derive(Clone, Copy)]
pub enum Pending {
    /// There is none.
    Nothing,
    /// That of an edge.
    Forth(Mark),
    /// A change back before an edge.
    Back(Turn),
}
