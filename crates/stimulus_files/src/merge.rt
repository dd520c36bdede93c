//! The changes of all channels, stamp by stamp.
ghost use Rattle.std.specs.Prelude.{◌≡◌};
ghost use Rattle.stimulus_files.specs.Merges.{earlier};

use crate::track::Track;
use capture_core::{Given, Stamp, Watch};
use wheel_types::{Channel, Instant};

/// The changes that are left of each channel.
#[derive(Clone, Copy)]
pub struct Merge {
    pub crank: Track,
    pub cam1: Track,
    pub cam2: Track,
}

/// All changes, and the levels before them.
#[derive(Clone, Copy)]
pub struct Opened {
    /// The changes.
    pub merge: Merge,
    /// The levels at time 0.
    pub given: Given,
}

/// The earlier of two times, where there are any.
fn earlier(first: Option<i128>, second: Option<i128>) -> Option<i128>
    ensures { result ≡ earlier first second }
{
    match (first, second) {
        (Some(first), Some(second)) => Some(if first < second { first } else { second }),
        (Some(time), None) | (None, Some(time)) => Some(time),
        (None, None) => None,
    }
}

impl Merge {
    ghost use Rattle.std.specs.Prelude.{◌<◌, ◌^◌, ◌∷◌, [], List, pos, IfSome, MatchOption};
    ghost use Rattle.wheel_types.specs.Verdicts.{AreWithin};
    ghost use Rattle.capture_core.specs.declared.capture.Stamp.{Stamp as AStamp};
    ghost use Rattle.capture_core.specs.declared.capture.Watch.{Watch as AWatch};
    ghost use Rattle.stimulus_files.specs.Changes.{AreStamps};
    ghost use Rattle.stimulus_files.specs.Merges.{IsWithin, left_count, Stands};
    ghost use Rattle.stimulus_files.specs.Written.{AreSmall};

    /// All changes of the instants.
    pub fn open(instants: &[Instant], watch: Watch) -> Opened
        requires small { AreWithin (10 ^ 24) instants.now }
        ensures within { IsWithin instants.now result.merge }
        ensures stands { AreSmall watch instants.now
            → Stands watch instants.now (record { time = pos 0; given = result.given }) [] result.merge }
    {
        let crank = Track::begin(instants, Channel::Crank, Some(watch.crank));
        let cam1 = Track::begin(instants, Channel::Cam1, watch.cam1);
        let cam2 = Track::begin(instants, Channel::Cam2, watch.cam2);
        Opened {
            merge: Merge {
                crank: crank.track,
                cam1: cam1.track,
                cam2: cam2.track,
            },
            given: Given {
                crank: crank.level,
                cam1: cam1.level,
                cam2: cam2.level,
            },
        }
    }

    /// The next stamp, where there is one.
    pub fn advance(&mut self, instants: &[Instant]) -> Option<Stamp>
        requires small { AreWithin (10 ^ 24) instants.now }
        requires within { IsWithin instants.now self.old }
        ensures within { IsWithin instants.now self.new }
        ensures fewer { IfSome result (λ s. left_count instants.now self.new < left_count instants.now self.old) }
        ensures stands { (watch : AWatch) (s : AStamp) (past : List AStamp) → Stands watch instants.now s past self.old
            → MatchOption result (AreStamps watch instants.now (s ∷ past)) (λ r. Stands watch instants.now r (s ∷ past) self.new) }
    {
        let crank = self.crank.time();
        let cam1 = self.cam1.time();
        let cam2 = self.cam2.time();
        let time = earlier(crank, earlier(cam1, cam2))?;
        let given = Given {
            crank: self.crank.take_at(instants, time),
            cam1: self.cam1.take_at(instants, time),
            cam2: self.cam2.take_at(instants, time),
        };
        Some(Stamp { time, given })
    }
}
