//! Windows: before their first instant, after one more, and what their instants prove.
ghost use Rattle.std.specs.Prelude.{◌≡◌, ◌∷◌, [], List as Items, ◌↔◌, All, Contains, IfOk};
ghost use Rattle.wheel_types.specs.Verdicts.{AllEarlier, IsVerdict};
ghost use Rattle.wheel_types.specs.Wheels.{IsWheel};
ghost use Rattle.wheel_types.specs.declared.instant.Instant.{Instant as Moment};
ghost use Rattle.wheel_types.specs.declared.parts.WheelParts.{WheelParts as Parts};
ghost use Rattle.cam_ranges.specs.Places.{IsAscending};
ghost use Rattle.legal_steps.specs.Times.{times_of, AreSmall, IsSmall};
ghost use Rattle.plain_motion.specs.Ends.{IsTestedPlace, AreAllPlaces, IsWindowOf, EndsOn, GoesOnTo, Keeps, starts_of};
ghost use Rattle.plain_motion.specs.declared.window.Walk.{Walk as Way};

use crate::least::least;
use crate::window::{Walk, Window};
use legal_steps::{CrankTimes, Motions};
use std::alloc::Global;
use wheel_types::{Instant, List, Memory, Place, Verdict};

/// The walks that go on by a step at one more instant, after crank edges at these times.
fn next_walks(
    alloc: Global,
    motions: &Motions,
    times: CrankTimes,
    walks: &[Walk],
    instant: &Instant,
) -> Result<List<Walk>, Memory>
    requires ends { All (EndsOn motions.now.wheel.parts) walks.now }
    requires times { AreSmall times }
    requires time { IsSmall instant.now.time }
    ensures ends { IfOk result (λ next. All (EndsOn motions.now.wheel.parts) next) }
    ensures ascend { IfOk result (λ next. IsAscending (starts_of walks.now) → IsAscending (starts_of next)) }
    ensures steps { IfOk result (λ next. (u : Way)
        → Contains next u ↔ ((v : Way) × (Contains walks.now v × GoesOnTo motions.now.wheel.parts (times_of times) instant.now v u))) }
{
    let mut next = Vec::with_capacity(alloc, walks.len())?;
    for walk in walks {
        if let Some(end) = motions.legal(times, walk.end, instant) {
            next.push(Walk {
                start: walk.start,
                end,
            })?;
        }
    }
    Ok(List::from_vec(next))
}

impl Window {
    /// A window before its first instant, of motions that begin at these places.
    pub fn new(alloc: Global, places: &[Place]) -> Result<Window, Memory>
        ensures fits { IfOk result (λ window. (w : Parts) → All (IsTestedPlace w) places.now → IsWindowOf w window) }
        ensures keeps { IfOk result (λ window. (w : Parts) → IsWheel w → AreAllPlaces w places.now → Keeps w window []) }
    {
        let mut walks = Vec::with_capacity(alloc, places.len())?;
        for place in places {
            walks.push(Walk {
                start: *place,
                end: *place,
            })?;
        }
        Ok(Window {
            walks: List::from_vec(walks),
            begun: false,
            times: CrankTimes::Unseen,
        })
    }

    /// The window with one more instant.
    pub fn after(
        &self,
        alloc: Global,
        motions: &Motions,
        instant: &Instant,
    ) -> Result<Window, Memory>
        requires fits { IsWindowOf motions.now.wheel.parts self.now }
        requires time { IsSmall instant.now.time }
        ensures fits { IfOk result (λ next. IsWindowOf motions.now.wheel.parts next) }
        ensures keeps { IfOk result (λ next. (past : Items Moment) → AllEarlier instant.now.time past
            → Keeps motions.now.wheel.parts self.now past → Keeps motions.now.wheel.parts next (instant.now ∷ past)) }
    {
        let walks = next_walks(alloc, motions, self.times, self.walks.as_slice(), instant)?;
        let times = match instant.crank {
            Some(_) => self.times.and(instant.time),
            None => self.times,
        };
        Ok(Window {
            walks,
            begun: true,
            times,
        })
    }

    /// The verdict of a window's instants.
    pub fn verdict(&self, motions: &Motions) -> Verdict
        requires fits { IsWindowOf motions.now.wheel.parts self.now }
        ensures { (past : Items Moment) → Keeps motions.now.wheel.parts self.now past → IsVerdict motions.now.wheel.parts past result }
    {
        let walks = self.walks.as_slice();
        let Some(first) = least(walks, None) else {
            return Verdict::Lost;
        };
        match least(walks, Some(first.end.j)) {
            None => Verdict::At {
                j: first.end.j,
                slot: motions.edges.crank_slot(first.end.j),
            },
            Some(second) => Verdict::Open {
                a: first.start,
                b: second.start,
            },
        }
    }
}
