//! How many edges were seen.
ghost use Rattle.std.specs.Prelude.{◌≡◌, ◌<◌, ◌-◌, ◌^◌};
ghost use Rattle.replay_core.specs.Counts.{more_if, with_edges, no_edges};

use wheel_types::{Instant, Pol};

/// How many edges of each channel the instants of a window have.
#[derive(Clone, Copy, Debug)]
pub struct EdgeCounts {
    pub crank: u64,
    pub cam1: u64,
    pub cam2: u64,
}

/// One more, where there is an edge.
fn more_if(edge: Option<Pol>, count: u64) -> u64
    requires { count < 2 ^ 64 - 1 }
    ensures { result ≡ more_if edge count }
{
    match edge {
        Some(_) => count + 1,
        None => count,
    }
}

impl EdgeCounts {
    /// Those of no instant.
    pub fn none() -> EdgeCounts
        ensures { result ≡ no_edges }
    {
        EdgeCounts {
            crank: 0,
            cam1: 0,
            cam2: 0,
        }
    }

    /// Those with one more instant.
    pub fn with(self, instant: &Instant) -> EdgeCounts
        requires crank { self.crank < 2 ^ 64 - 1 }
        requires cam1 { self.cam1 < 2 ^ 64 - 1 }
        requires cam2 { self.cam2 < 2 ^ 64 - 1 }
        ensures { result ≡ with_edges instant.now self }
    {
        EdgeCounts {
            crank: more_if(instant.crank, self.crank),
            cam1: more_if(instant.cam1, self.cam1),
            cam2: more_if(instant.cam2, self.cam2),
        }
    }
}
