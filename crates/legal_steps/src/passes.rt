//! Edges passed one after the other.
ghost use Rattle.std.specs.Prelude.{◌≡◌, ◌<◌, ◌≤◌, ◌^◌, ◌⊎◌, ◌↔◌, ℤ, pos, IsTrue, IfSome, unsigned_abs};
ghost use Rattle.wheel_types.specs.Edges.{edge_count};
ghost use Rattle.wheel_types.specs.Motions.{index_of, passed};
ghost use Rattle.wheel_types.specs.Verdicts.{place_of};
ghost use Rattle.wheel_types.specs.Steps.{indices_of};
ghost use Rattle.wheel_types.specs.declared.place.Place.{Place as Spot};
ghost use Rattle.cam_ranges.specs.Places.{IsPlace};
ghost use Rattle.legal_steps.specs.Passes.{IsNextEdge, Passes, PassesBoth, PassesFirst, PassesAll, PassesInstant, Finds};

use crate::motions::Motions;
use cam_ranges::stands;
use wheel_types::{Channel, Instant, Place, Pol};

/// The edge of a channel that an instant has, if it has one.
#[derive(Clone, Copy, Debug)]
pub struct Seen {
    pub channel: Channel,
    pub edge: Option<Pol>,
}

/// The next edge of a channel.
fn next_edge(from: Place, channel: Channel) -> i32
    requires { from.j < 4096 }
    ensures { result ≡ index_of (indices_of from) channel }
{
    match channel {
        Channel::Crank => from.j as i32 + 1,
        Channel::Cam1 => from.n1,
        Channel::Cam2 => from.n2,
    }
}

impl Motions {
    /// Whether the next edge of a channel is of this polarity.
    fn is_next(&self, from: Place, channel: Channel, pol: Pol) -> bool
        requires { from.j < edge_count self.now.wheel.parts Channel.Crank }
        ensures { IsTrue result ↔ IsNextEdge self.now.wheel.parts from channel pol }
    {
        let count = self.edges.cam_count(channel) as i32;
        if count == 0 {
            return false;
        }
        let number = next_edge(from, channel).rem_euclid(count) as u32;
        self.edges.cam_pol(channel, number) == pol
    }

    /// The place after the next crank edge, carried into the first cycle.
    fn after_crank(&self, from: Place) -> Place
        requires edge { from.j < edge_count self.now.wheel.parts Channel.Crank }
        requires first { unsigned_abs from.n1 < 2 ^ 17 }
        requires second { unsigned_abs from.n2 < 2 ^ 17 }
        ensures next { result ≡ place_of self.now.wheel.parts (passed Channel.Crank (indices_of from)) }
        ensures first { unsigned_abs result.n1 < 2 ^ 20 }
        ensures second { unsigned_abs result.n2 < 2 ^ 20 }
    {
        let j = from.j + 1;
        if j < self.edges.crank_count() {
            return Place { j, ..from };
        }
        Place {
            j: 0,
            n1: from.n1 - self.edges.cam_count(Channel::Cam1) as i32,
            n2: from.n2 - self.edges.cam_count(Channel::Cam2) as i32,
        }
    }

    /// The place after the next edge of a channel, carried into the first cycle.
    fn after(&self, from: Place, channel: Channel) -> Place
        requires edge { from.j < edge_count self.now.wheel.parts Channel.Crank }
        requires first { unsigned_abs from.n1 < 2 ^ 17 }
        requires second { unsigned_abs from.n2 < 2 ^ 17 }
        ensures next { result ≡ place_of self.now.wheel.parts (passed channel (indices_of from)) }
        ensures first { unsigned_abs result.n1 < 2 ^ 20 }
        ensures second { unsigned_abs result.n2 < 2 ^ 20 }
    {
        let Place { j, n1, n2 } = from;
        match channel {
            Channel::Crank => self.after_crank(from),
            Channel::Cam1 => Place { j, n1: n1 + 1, n2 },
            Channel::Cam2 => Place { j, n1, n2: n2 + 1 },
        }
    }

    /// The place after the edge seen of a channel, where the engine can pass it. No edge moves nothing.
    fn pass(&self, from: Place, seen: Seen) -> Option<Place>
        requires { IsPlace self.now.wheel.parts from }
        ensures place { IfSome result (λ q. IsPlace self.now.wheel.parts q) }
        ensures pass { Finds (Passes self.now.wheel.parts from seen) result }
    {
        let Some(pol) = seen.edge else {
            return Some(from);
        };
        if !self.is_next(from, seen.channel, pol) {
            return None;
        }
        let to = self.after(from, seen.channel);
        if stands(&self.wheel, &self.edges, to) {
            Some(to)
        } else {
            None
        }
    }

    /// The place after two edges, passed in this order.
    fn pass_both(&self, from: Place, first: Seen, second: Seen) -> Option<Place>
        requires { IsPlace self.now.wheel.parts from }
        ensures place { IfSome result (λ q. IsPlace self.now.wheel.parts q) }
        ensures pass { Finds (PassesBoth self.now.wheel.parts from first second) result }
    {
        let between = self.pass(from, first)?;
        self.pass(between, second)
    }

    /// The place after three edges of which this one is passed first.
    fn pass_first(&self, from: Place, first: Seen, second: Seen, third: Seen) -> Option<Place>
        requires { IsPlace self.now.wheel.parts from }
        ensures place { IfSome result (λ q. IsPlace self.now.wheel.parts q) }
        ensures pass { Finds (PassesFirst self.now.wheel.parts from first second third) result }
    {
        let between = self.pass(from, first)?;
        match self.pass_both(between, second, third) {
            Some(to) => Some(to),
            None => self.pass_both(between, third, second),
        }
    }

    /// The place after three edges, passed in some order.
    fn pass_all(&self, from: Place, first: Seen, second: Seen, third: Seen) -> Option<Place>
        requires { IsPlace self.now.wheel.parts from }
        ensures place { IfSome result (λ q. IsPlace self.now.wheel.parts q) }
        ensures pass { Finds (PassesAll self.now.wheel.parts from first second third) result }
    {
        match self.pass_first(from, first, second, third) {
            Some(to) => Some(to),
            None => match self.pass_first(from, second, first, third) {
                Some(to) => Some(to),
                None => self.pass_first(from, third, first, second),
            },
        }
    }

    /// The place after the edges of an instant, passed in some order, where the engine can pass them. It takes no memory.
    pub fn pass_instant(&self, from: Place, instant: &Instant) -> Option<Place>
        requires { IsPlace self.now.wheel.parts from }
        ensures place { IfSome result (λ q. IsPlace self.now.wheel.parts q) }
        ensures pass { Finds (PassesInstant self.now.wheel.parts from instant.now) result }
    {
        let crank = Seen {
            channel: Channel::Crank,
            edge: instant.crank,
        };
        let cam1 = Seen {
            channel: Channel::Cam1,
            edge: instant.cam1,
        };
        let cam2 = Seen {
            channel: Channel::Cam2,
            edge: instant.cam2,
        };
        self.pass_all(from, crank, cam1, cam2)
    }
}
