//! A wheel and the legal steps of its places.
ghost use Rattle.std.specs.Prelude.{◌≡◌, IfOk, IfSome};
ghost use Rattle.wheel_types.specs.declared.place.Place.{Place as Spot};
ghost use Rattle.edge_angles.specs.EdgeTables.{AreEdgesOf};
ghost use Rattle.cam_ranges.specs.Places.{IsPlace};
ghost use Rattle.legal_steps.specs.Passes.{Finds};
ghost use Rattle.legal_steps.specs.Times.{times_of, AreSmall, IsSmall};
ghost use Rattle.legal_steps.specs.TimedSteps.{IsTimedStep};

use crate::times::CrankTimes;
use edge_angles::Edges;
use std::alloc::Global;
use wheel_types::{Instant, Memory, Place, Wheel};

/// A wheel with its edges.
#[derive(Drop)]
pub struct Motions {
    /// The wheel.
    pub wheel: Wheel,
    /// Its kept edges.
    pub edges: Edges,
    pub ghost table: { AreEdgesOf wheel.parts edges },
}

impl Motions {
    /// A copy of what is needed of a wheel. It asks the wheel's edges.
    ///
    /// # Errors
    /// Want of memory.
    pub fn of(alloc: Global, wheel: &Wheel, edges: &Edges) -> Result<Motions, Memory>
        requires table { AreEdgesOf wheel.now.parts edges.now }
        ensures { IfOk result (λ motions. motions.wheel.parts ≡ wheel.now.parts) }
    {
        Ok(Motions {
            wheel: wheel.copied(alloc)?,
            edges: edges.copied(alloc)?,
        })
    }

    /// The end place of the one legal step of a place at an instant, after crank edges at these times, if it has one. It asks times
    /// of at most 10^24 femtoseconds in size. It takes no memory.
    pub fn legal(&self, times: CrankTimes, from: Place, instant: &Instant) -> Option<Place>
        requires place { IsPlace self.now.wheel.parts from }
        requires times { AreSmall times }
        requires time { IsSmall instant.now.time }
        ensures place { IfSome result (λ q. IsPlace self.now.wheel.parts q) }
        ensures step { Finds (λ q. IsTimedStep self.now.wheel.parts (times_of times) from instant.now q) result }
    {
        match instant.crank {
            Some(_) if !self.keeps_gaps(times, from.j, instant.time) => None,
            _ => self.pass_instant(from, instant),
        }
    }
}
