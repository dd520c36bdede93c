//! Channels, and the edges that are kept of them.

use std::fmt;

/// Which way a level goes at an edge.
#[derive(Clone, Copy, Debug, PartialEq, Eq)]
pub enum Pol {
    /// From 0 to 1.
    Rise,
    /// From 1 to 0.
    Fall,
}

/// Which edges of a channel are kept.
#[derive(Clone, Copy, Debug, PartialEq, Eq)]
pub enum Keep {
    Rising,
    Falling,
    Both,
}

/// A sensor's signal: the crank wheel's, or that of one of two cam wheels.
#[derive(Clone, Copy, Debug, PartialEq, Eq)]
pub enum Channel {
    Crank,
    Cam1,
    Cam2,
}

impl fmt::Display for Channel {
    fn fmt<W: fmt::Write>(&self, f: &mut fmt::Formatter<W>) -> fmt::Result {
        f.write_str(match self {
            Channel::Crank => "crank",
            Channel::Cam1 => "cam1",
            Channel::Cam2 => "cam2",
        })
    }
}
