//! Where an engine can stand between edges.

/// The next edges of the channels: crank edge `j + 1`, and edges `n1` and `n2` of the cams, carried by whole
/// cycles until `j` numbers an edge of the first cycle. `j`, the last crank edge passed, is the position.
/// The index of an absent cam is 0. Places are ordered by `j`, then `n1`, then `n2`.
#[derive(Clone, Copy, Debug, PartialEq, Eq, PartialOrd, Ord)]
pub struct Place {
    pub j: u32,
    pub n1: i32,
    pub n2: i32,
}

impl Place {
    ghost use Rattle.std.specs.Prelude.{◌↔◌, IsTrue};
    ghost use Rattle.wheel_types.specs.Verdicts.{IsBefore};

    /// Whether it stands before the other place, or is the same, in the order that `Ord` gives: by `j`, then by `n1`, then by `n2`.
    pub fn is_not_after(&self, other: &Place) -> bool
        ensures { IsTrue result ↔ IsBefore self.now other.now }
    {
        self <= other
    }
}
