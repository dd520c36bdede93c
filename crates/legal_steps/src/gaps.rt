//! Limits on the gaps between the last crank edges of a window.
ghost use Rattle.std.specs.Prelude.{◌≡◌, ◌+◌, ◌<◌, ◌≤◌, ◌⊎◌, ◌↔◌, IsTrue, pos, ◌-ℤ◌, ◌*◌, ◌^◌};
ghost use Rattle.wheel_types.specs.Edges.{slot_count, edge_count};
ghost use Rattle.wheel_types.specs.Motions.{KeepsSpeed, KeepsRatio, slots_between, time_between};
ghost use Rattle.wheel_types.specs.Steps.{KeepsGaps};
ghost use Rattle.legal_steps.specs.Times.{times_of, AreSmall, IsSmall};

use crate::motions::Motions;
use crate::times::CrankTimes;
use motion_bounds::{keeps_ratio, keeps_speed};
use wheel_types::Channel;

/// Femtoseconds from one time to another.
fn apart(from: i128, to: i128) -> u128
    requires from { IsSmall from }
    requires to { IsSmall to }
    ensures time { result ≡ time_between from to }
    ensures bound { result ≤ 2 * 10 ^ 24 }
{
    to.abs_diff(from)
}

impl Motions {
    /// The position before `j`.
    fn before(&self, j: u32) -> u32
        requires { j < edge_count self.now.wheel.parts Channel.Crank }
        ensures within { result < edge_count self.now.wheel.parts Channel.Crank }
        ensures back { (result + 1 ≡ j) ⊎ ((j ≡ 0) × (result + 1 ≡ edge_count self.now.wheel.parts Channel.Crank)) }
    {
        if j > 0 {
            j - 1
        } else {
            self.edges.crank_count() - 1
        }
    }

    /// Slots from the crank edge before position `j` to that of `j`. It asks a position of the wheel.
    pub fn gap_before(&self, j: u32) -> u32
        requires { j < edge_count self.now.wheel.parts Channel.Crank }
        ensures slots { result ≡ slots_between self.now.wheel.parts ((pos (j + 1) -ℤ pos 1) -ℤ pos 1) (pos (j + 1) -ℤ pos 1) }
        ensures most { result ≤ slot_count self.now.wheel.parts }
    {
        let before = self.before(j);
        self.edges.crank_gap(before)
    }

    /// Whether the crank edge after position `j` keeps the limits on speed, so long after the one before it.
    fn keeps_speed(&self, j: u32, last: i128, time: i128) -> bool
        requires position { j < edge_count self.now.wheel.parts Channel.Crank }
        requires last { IsSmall last }
        requires time { IsSmall time }
        ensures { IsTrue result
            ↔ KeepsSpeed self.now.wheel.parts (slots_between self.now.wheel.parts (pos j) (pos (j + 1))) (time_between last time) }
    {
        let slots = self.edges.crank_gap(j);
        let time = apart(last, time);
        keeps_speed(&self.wheel, slots, time)
    }

    /// Whether the gaps before and after position `j` keep the limit on the ratio of their speeds.
    fn keeps_ratio(&self, j: u32, before: i128, last: i128, time: i128) -> bool
        requires position { j < edge_count self.now.wheel.parts Channel.Crank }
        requires before { IsSmall before }
        requires last { IsSmall last }
        requires time { IsSmall time }
        ensures { IsTrue result
            ↔ KeepsRatio self.now.wheel.parts
            (slots_between self.now.wheel.parts ((pos (j + 1) -ℤ pos 1) -ℤ pos 1) (pos (j + 1) -ℤ pos 1)) (time_between before last)
            (slots_between self.now.wheel.parts (pos j) (pos (j + 1))) (time_between last time) }
    {
        let slots_before = self.gap_before(j);
        let time_before = apart(before, last);
        let slots = self.edges.crank_gap(j);
        let time = apart(last, time);
        keeps_ratio(&self.wheel, slots_before, time_before, slots, time)
    }

    /// Whether the crank edge after position `j` keeps the limits at a time after these.
    pub fn keeps_gaps(&self, times: CrankTimes, j: u32, time: i128) -> bool
        requires position { j < edge_count self.now.wheel.parts Channel.Crank }
        requires times { AreSmall times }
        requires time { IsSmall time }
        ensures { IsTrue result ↔ KeepsGaps self.now.wheel.parts (pos (j + 1)) time (times_of times) }
    {
        match times {
            CrankTimes::Unseen => true,
            CrankTimes::Once { last } => self.keeps_speed(j, last, time),
            CrankTimes::Twice { last, before } => {
                self.keeps_speed(j, last, time) && self.keeps_ratio(j, before, last, time)
            }
        }
    }
}
