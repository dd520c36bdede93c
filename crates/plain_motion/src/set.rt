//! The plain set: end places, instant by instant.
ghost use Rattle.std.specs.Prelude.{◌≡◌, ◌<ℤ◌, [], ◌∷◌, List as Items, All, Contains};
ghost use Rattle.std.specs.Prelude.{Some, None, IfSome, IfOk, IfErr, OnOk, OnErr, MatchOption};
ghost use Rattle.wheel_types.specs.Steps.{IsLegalStep};
ghost use Rattle.wheel_types.specs.Verdicts.{Leads};
ghost use Rattle.wheel_types.specs.declared.instant.Instant.{Instant as Moment};
ghost use Rattle.wheel_types.specs.declared.place.Place.{Place as Spot};
ghost use Rattle.wheel_types.specs.declared.verdict.Verdict.{Verdict as Judgement};
ghost use Rattle.edge_angles.specs.EdgeTables.{AreEdgesOf};
ghost use Rattle.cam_ranges.specs.Places.{IsPlace, HasTooMany};
ghost use Rattle.legal_steps.specs.Times.{IsSmall};
ghost use Rattle.plain_motion.specs.Ends.{IsTestedPlace, AreAllPlaces, IsWindowOf};
ghost use Rattle.plain_motion.specs.Memories.{BeginsAfter, Remembers};
ghost use Rattle.plain_motion.specs.EndPlaces.{AreEndsOf};

use crate::ends::{ends_of, walk_from, walk_to};
use crate::window::Window;
use cam_ranges::{PlaceFault, all_places};
use edge_angles::Edges;
use legal_steps::Motions;
use std::alloc::Global;
use wheel_types::{Instant, List, Memory, Place, Verdict, Wheel};

/// The places at which motions can end that give the instants so far, each with the place where they began.
#[derive(Drop)]
pub struct PlainSet {
    alloc: Global,
    motions: Motions,
    places: List<Place>,
    window: Window,
    ends: List<Place>,
    last: Option<i128>,
    pub ghost stand: { All (IsTestedPlace motions.wheel.parts) places },
    pub ghost fits: { IsWindowOf motions.wheel.parts window },
}

impl PlainSet {
    ghost use Rattle.plain_motion.specs.Sets.{StandsFor, last_of, wheel_of, end_places};

    /// The set before the first instant. It asks the wheel's edges.
    ///
    /// # Errors
    /// `TooMany` where the wheel has more than 16,384 places; want of memory.
    pub fn new(alloc: Global, wheel: &Wheel, edges: &Edges) -> Result<PlainSet, PlaceFault>
        requires edges { AreEdgesOf wheel.now.parts edges.now }
        ensures stands { IfOk result (λ set. StandsFor set [] []) }
        ensures wheel { IfOk result (λ set. wheel_of set ≡ wheel.now.parts) }
        ensures last { IfOk result (λ set. last_of set ≡ None) }
        ensures few { OnOk result (¬ HasTooMany wheel.now.parts) }
        ensures many { IfErr result (λ fault. fault ≡ PlaceFault.TooMany → HasTooMany wheel.now.parts) }
    {
        let places = List::from_vec(all_places(alloc, wheel, edges)?);
        let motions = Motions::of(alloc, wheel, edges)?;
        let window = Window::new(alloc, places.as_slice())?;
        let ends = ends_of(alloc, &window)?;
        Ok(PlainSet {
            alloc,
            motions,
            places,
            window,
            ends,
            last: None,
        })
    }

    /// The time of the last instant, in femtoseconds.
    pub fn last(&self) -> Option<i128>
        ensures { result ≡ last_of self.now }
    {
        self.last
    }

    /// Takes one more instant and answers its verdict. It asks a time above the last instant's, at most 10^24
    /// femtoseconds in size.
    ///
    /// # Errors
    /// Want of memory; the set is then unchanged.
    pub fn step(&mut self, instant: &Instant) -> Result<Verdict, Memory>
        requires later { IfSome (last_of self.old) (λ t. t <ℤ instant.now.time) }
        requires time { IsSmall instant.now.time }
        ensures stands { IfOk result (λ v. (past : Items Moment) (verdicts : Items Judgement)
            → StandsFor self.old past verdicts → StandsFor self.new (instant.now ∷ past) (v ∷ verdicts)) }
        ensures last { OnOk result (last_of self.new ≡ Some instant.now.time) }
        ensures wheel { wheel_of self.new ≡ wheel_of self.old }
        ensures err { OnErr result (self.new ≡ self.old) }
    {
        let (window, verdict) = self.stepped(instant)?;
        let ends = ends_of(self.alloc, &window)?;
        self.window = window;
        self.ends = ends;
        self.last = Some(instant.time);
        Ok(verdict)
    }

    /// The end place of the one legal step of a place at an instant that would be the next, if it has one. It asks a
    /// time above the last instant's, at most 10^24 femtoseconds in size. It takes no memory.
    pub fn legal(&self, from: Place, instant: &Instant) -> Option<Place>
        requires place { IsPlace (wheel_of self.now) from }
        requires later { IfSome (last_of self.now) (λ t. t <ℤ instant.now.time) }
        requires time { IsSmall instant.now.time }
        ensures { (past : Items Moment) (verdicts : Items Judgement) (set : StandsFor self.now past verdicts)
            → MatchOption result ((q : Spot) → ¬ IsLegalStep (wheel_of self.now) set.kept.window from instant.now q)
            (λ q. IsLegalStep (wheel_of self.now) set.kept.window from instant.now q) }
    {
        self.motions.legal(self.window.times, from, instant)
    }

    /// The places at which motions end that give the instants of the window that the next instant comes into, ascending;
    /// none where it has no instant. It takes no memory.
    pub fn ends(&self) -> &[Place]
        ensures places { result.now ≡ end_places self.now }
        ensures ends { (past : Items Moment) (verdicts : Items Judgement) (set : StandsFor self.now past verdicts)
            → AreEndsOf (wheel_of self.now) set.kept.window result.now }
    {
        self.ends.as_slice()
    }

    /// Where the motions began that end at one of these places. It takes no memory.
    pub fn start_of(&self, end: Place) -> Place
        requires { Contains (end_places self.now) end }
        ensures { (past : Items Moment) (verdicts : Items Judgement) (set : StandsFor self.now past verdicts)
            → Leads (wheel_of self.now) set.kept.window result end }
    {
        match walk_to(self.window.walks.as_slice(), end) {
            Some(walk) => walk.start,
            None => end,
        }
    }

    /// Where the motions end that began at a place and give the instants of the window that the next instant comes into, if
    /// there are any. It takes no memory.
    pub fn end_of(&self, start: Place) -> Option<Place>
        ensures { (past : Items Moment) (verdicts : Items Judgement) (set : StandsFor self.now past verdicts)
            → MatchOption result ((e : Spot) → ¬ Leads (wheel_of self.now) set.kept.window start e)
            (λ e. Leads (wheel_of self.now) set.kept.window start e) }
    {
        match walk_from(self.window.walks.as_slice(), start) {
            Some(walk) => Some(walk.end),
            None => None,
        }
    }

    /// The window that the next instant comes into, and the verdict of this one.
    fn stepped(&self, instant: &Instant) -> Result<(Window, Verdict), Memory>
        requires later { IfSome (last_of self.now) (λ t. t <ℤ instant.now.time) }
        requires time { IsSmall instant.now.time }
        ensures fits { IfOk result (λ after. IsWindowOf self.now.motions.wheel.parts after.0) }
        ensures stands { IfOk result (λ after. (past : Items Moment) (verdicts : Items Judgement) → StandsFor self.now past verdicts
            → Remembers self.now.motions.wheel.parts after.0 (Some instant.now.time) (instant.now ∷ past) (after.1 ∷ verdicts)) }
    {
        let next = self.window.after(self.alloc, &self.motions, instant)?;
        let verdict = next.verdict(&self.motions);
        match verdict {
            Verdict::Lost => Ok((self.window_from(instant)?, verdict)),
            _ => Ok((next, verdict)),
        }
    }

    /// The window after a loss. Where this window has an instant, it is the one that begins with the lost instant if
    /// that alone is not lost; else the one that begins after it.
    fn window_from(&self, instant: &Instant) -> Result<Window, Memory>
        requires time { IsSmall instant.now.time }
        ensures fits { IfOk result (λ window. IsWindowOf self.now.motions.wheel.parts window) }
        ensures begins { IfOk result (λ window. AreAllPlaces self.now.motions.wheel.parts self.now.places
            → BeginsAfter self.now.motions.wheel.parts self.now.window.begun instant.now window) }
    {
        let fresh = Window::new(self.alloc, self.places.as_slice())?;
        if !self.window.begun {
            return Ok(fresh);
        }
        let alone = fresh.after(self.alloc, &self.motions, instant)?;
        match alone.verdict(&self.motions) {
            Verdict::Lost => Ok(fresh),
            _ => Ok(alone),
        }
    }
}
