//! How the instants of a stimulus are made, one after the other.
ghost use Rattle.std.specs.Prelude.{◌≡◌, ◌+◌, ◌≤◌, ◌<◌, suc, IfOk, IfErr, OnOk, MatchOption};
ghost use Rattle.stimulus.specs.Causes.{Says, HasFewEdges};
ghost use Rattle.stimulus.specs.Drawn.{IsStimulus};
ghost use Rattle.stimulus.specs.Gaps.{HasTimes};
ghost use Rattle.stimulus.specs.Making.{IsMade, IsMaking, IsEarliest, IsEarlier, ArePast, cams_passed};
ghost use Rattle.stimulus.specs.Plans.{IsPlan};

use crate::angle::polarity;
use crate::cam::{Cam, first_cam};
use crate::crank::{CrankEdge, first_crank_edge, next_crank_edge, time_at};
use crate::draws::generator;
use crate::fault::StimFault;
use crate::plan::Plan;
use rand_pcg::Lcg64Xsh32;
use std::alloc::Global;
use wheel_types::{Channel, Instant, Wheel};

/// How many edges a stimulus may have.
const MOST_EDGES: u32 = 4_000_000;

/// A stimulus that is being made.
#[derive(Drop)]
pub struct Maker {
    /// What the times of the crank's gaps are drawn from.
    generator: Lcg64Xsh32,
    /// The last crank edge passed.
    from: CrankEdge,
    /// The next one.
    to: CrankEdge,
    cam1: Cam,
    cam2: Cam,
    /// The instants so far.
    instants: Vec<Instant>,
}

/// The earlier of two angles, where there are two.
fn earlier(one: Option<i64>, other: Option<i64>) -> Option<i64>
    ensures { IsEarlier one other result }
{
    match (one, other) {
        (Some(one), Some(other)) => Some(one.min(other)),
        (one, None) => one,
        (None, other) => other,
    }
}

impl Maker {
    /// A stimulus with its first instant.
    ///
    /// # Errors
    /// `Stuck` where the first gap has no time; `TooManyEdges`; want of memory.
    pub fn begin(alloc: Global, wheel: &Wheel, plan: &Plan) -> Result<Maker, StimFault>
        requires plan { IsPlan wheel.now.parts plan.now }
        requires some { 1 ≤ plan.now.gaps }
        ensures making { IfOk result (λ maker. IsMaking wheel.now.parts plan.now maker) }
        ensures first { IfOk result (λ maker. maker.from.number ≡ 0) }
        ensures stops { IfErr result (λ fault. Says wheel.now.parts plan.now.seed plan.now.gaps fault) }
    {
        let mut generator = generator(plan.seed, 0);
        let from = first_crank_edge(wheel, plan, &mut generator);
        let to = next_crank_edge(wheel, plan, from, &mut generator)?;
        let mut cam1 = first_cam(wheel, plan, Channel::Cam1, from);
        let mut cam2 = first_cam(wheel, plan, Channel::Cam2, from);
        let instant = Instant {
            time: from.time as i128,
            crank: Some(polarity(wheel, &plan.edges, Channel::Crank, from.edge)),
            cam1: cam1.pass_at(wheel, plan, Channel::Cam1, from.angle),
            cam2: cam2.pass_at(wheel, plan, Channel::Cam2, from.angle),
        };
        let mut instants = Vec::new(alloc);
        instants.push(instant)?;
        let maker = Maker {
            generator,
            from,
            to,
            cam1,
            cam2,
            instants,
        };
        maker.refuse_many(wheel, plan)?;
        Ok(maker)
    }

    /// Finds that there are not too many edges yet: all of the crank's, and those of the cams that were passed.
    ///
    /// # Errors
    /// `TooManyEdges`.
    fn refuse_many(&self, wheel: &Wheel, plan: &Plan) -> Result<(), StimFault>
        requires plan { IsPlan wheel.now.parts plan.now }
        requires made { IsMade wheel.now.parts plan.now self.now }
        requires near { cams_passed self.now ≤ 4_000_002 }
        ensures few { OnOk result (plan.now.gaps + 1 + cams_passed self.now ≤ 4_000_000) }
        ensures many { IfErr result (λ fault. Says wheel.now.parts plan.now.seed plan.now.gaps fault) }
    {
        if plan.gaps + 1 + self.cam1.passed + self.cam2.passed > MOST_EDGES {
            return Err(StimFault::TooManyEdges);
        }
        Ok(())
    }

    /// The angle of the next edge of a cam, if it is before the next crank edge.
    fn next_cam_angle(&self) -> Option<i64>
        ensures { MatchOption result (ArePast self.now) (λ angle. IsEarliest self.now angle) }
    {
        let angle = earlier(self.cam1.next, self.cam2.next)?;
        if angle < self.to.angle {
            Some(angle)
        } else {
            None
        }
    }

    /// Passes the cams' edges at an angle, all of them in one instant.
    ///
    /// # Errors
    /// `TooManyEdges`; want of memory.
    fn pass_cams_at(&mut self, wheel: &Wheel, plan: &Plan, angle: i64) -> Result<(), StimFault>
        requires plan { IsPlan wheel.now.parts plan.now }
        requires making { IsMaking wheel.now.parts plan.now self.old }
        requires earliest { IsEarliest self.old angle }
        ensures making { OnOk result (IsMaking wheel.now.parts plan.now self.new) }
        ensures same { OnOk result (self.new.from ≡ self.old.from) }
        ensures more { OnOk result (cams_passed self.old < cams_passed self.new) }
        ensures stops { IfErr result (λ fault. Says wheel.now.parts plan.now.seed plan.now.gaps fault) }
    {
        let instant = Instant {
            time: time_at(wheel, plan, self.from, self.to, angle),
            crank: None,
            cam1: self.cam1.pass_at(wheel, plan, Channel::Cam1, angle),
            cam2: self.cam2.pass_at(wheel, plan, Channel::Cam2, angle),
        };
        self.instants.push(instant)?;
        self.refuse_many(wheel, plan)?;
        Ok(())
    }

    /// Passes the edges of cams before the next crank edge.
    ///
    /// # Errors
    /// `TooManyEdges`; want of memory.
    pub fn pass_cams(&mut self, wheel: &Wheel, plan: &Plan) -> Result<(), StimFault>
        requires plan { IsPlan wheel.now.parts plan.now }
        requires making { IsMaking wheel.now.parts plan.now self.old }
        ensures making { OnOk result (IsMaking wheel.now.parts plan.now self.new) }
        ensures past { OnOk result (ArePast self.new) }
        ensures same { OnOk result (self.new.from ≡ self.old.from) }
        ensures stops { IfErr result (λ fault. Says wheel.now.parts plan.now.seed plan.now.gaps fault) }
    {
        while let Some(angle) = self.next_cam_angle() {
            self.pass_cams_at(wheel, plan, angle)?;
        }
        Ok(())
    }

    /// Passes the next crank edge, which is not the last, and the cams' edges at its angle.
    ///
    /// # Errors
    /// `Stuck` where the gap after it has no time; `TooManyEdges`; want of memory.
    pub fn pass_crank(&mut self, wheel: &Wheel, plan: &Plan) -> Result<(), StimFault>
        requires plan { IsPlan wheel.now.parts plan.now }
        requires making { IsMaking wheel.now.parts plan.now self.old }
        requires past { ArePast self.old }
        requires not_last { suc self.old.from.number < plan.now.gaps }
        ensures making { OnOk result (IsMaking wheel.now.parts plan.now self.new) }
        ensures next { OnOk result (self.new.from.number ≡ suc self.old.from.number) }
        ensures stops { IfErr result (λ fault. Says wheel.now.parts plan.now.seed plan.now.gaps fault) }
    {
        let next = next_crank_edge(wheel, plan, self.to, &mut self.generator)?;
        self.from = self.to;
        self.to = next;
        let angle = self.from.angle;
        let instant = Instant {
            time: self.from.time as i128,
            crank: Some(polarity(wheel, &plan.edges, Channel::Crank, self.from.edge)),
            cam1: self.cam1.pass_at(wheel, plan, Channel::Cam1, angle),
            cam2: self.cam2.pass_at(wheel, plan, Channel::Cam2, angle),
        };
        self.instants.push(instant)?;
        self.refuse_many(wheel, plan)?;
        Ok(())
    }

    /// Passes the last crank edge, without the cams' edges at its angle, and gives the instants.
    ///
    /// # Errors
    /// Want of memory.
    pub fn finish(mut self, wheel: &Wheel, plan: &Plan) -> Result<Vec<Instant>, StimFault>
        requires plan { IsPlan wheel.now.parts plan.now }
        requires making { IsMaking wheel.now.parts plan.now self }
        requires past { ArePast self }
        requires last { suc self.from.number ≡ plan.now.gaps }
        ensures whole { IfOk result (λ instants. IsStimulus wheel.now.parts plan.now.seed plan.now.gaps instants.items) }
        ensures few { OnOk result (HasFewEdges wheel.now.parts plan.now.seed plan.now.gaps) }
        ensures timed { OnOk result (HasTimes wheel.now.parts plan.now.seed plan.now.gaps) }
        ensures stops { IfErr result (λ fault. Says wheel.now.parts plan.now.seed plan.now.gaps fault) }
    {
        let instant = Instant {
            time: self.to.time as i128,
            crank: Some(polarity(wheel, &plan.edges, Channel::Crank, self.to.edge)),
            cam1: None,
            cam2: None,
        };
        self.instants.push(instant)?;
        Ok(self.instants)
    }
}
