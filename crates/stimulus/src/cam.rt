//! The edges of a cam, one after the other.
ghost use Rattle.std.specs.Prelude.{◌≡◌, ℕ, ◌≤◌, ◌<◌, ◌+◌, ◌*◌, ◌^◌, suc, pos, ◌-ℤ◌, ◌≤ℤ◌, ◌<ℤ◌, unsigned_abs, nat_lt, length, filter, IfSome, IsSome};
ghost use Rattle.std.specs.Int.{int_max};
ghost use Rattle.wheel_types.specs.Edges.{edge_count, edge_slots, early_of, late_of, slot_count, first_angle, last_angle, pol_of};
ghost use Rattle.wheel_types.specs.declared.parts.WheelParts.{WheelParts as Parts};
ghost use Rattle.edge_angles.specs.EdgeTables.{AreEdgesOf};
ghost use Rattle.stimulus.specs.Draws.{after_draw, drawn_angle};
ghost use Rattle.stimulus.specs.Cams.{cam_angle, cam_edge, stream_of};
ghost use Rattle.stimulus.specs.CamsOf.{IsCam, Takes};
ghost use Rattle.stimulus.specs.Cranks.{IsCrankEdge};
ghost use Rattle.stimulus.specs.Plans.{IsPlan};

use crate::angle::{angle, polarity};
use crate::crank::CrankEdge;
use crate::draws::{draw_part, generator};
use crate::plan::Plan;
use edge_angles::Edges;
use rand_pcg::Lcg64Xsh32;
use wheel_types::{Channel, Pol, Wheel};

/// A cam's next edge in a stimulus, if the wheel has edges of the cam, with the generator of those after it.
#[derive(Drop)]
pub struct Cam {
    /// The number of the cam's first edge in the stimulus among those of the wheel, counted on through all cycles.
    pub first: u64,
    /// How many edges of the cam were passed.
    pub passed: u32,
    /// The angle of the next one, in units of which a millidegree has as many as the wheel has slots.
    pub next: Option<i64>,
    /// What the angle of the edge after it is drawn from.
    pub generator: Lcg64Xsh32,
}

/// The angle that is drawn from `low` to `high`, both of which may come.
pub fn draw_angle(generator: &mut Lcg64Xsh32, low: i64, high: i64) -> i64
    requires some { low ≤ℤ high }
    requires near { unsigned_abs (high -ℤ low) < 2 ^ 62 }
    ensures value { result ≡ drawn_angle low high generator.old }
    ensures after { generator.new ≡ after_draw generator.old }
{
    low + draw_part(generator, (high - low) as u64 + 1) as i64
}

/// Units by which an edge of a channel may fall before its angle, and after it.
fn phasing(wheel: &Wheel, channel: Channel) -> (i64, i64)
    ensures early { result.0 ≡ pos (early_of wheel.now.parts channel * slot_count wheel.now.parts) }
    ensures late { result.1 ≡ pos (late_of wheel.now.parts channel * slot_count wheel.now.parts) }
{
    let parts = wheel.parts();
    let (early, late) = match channel {
        Channel::Crank => (0, 0),
        Channel::Cam1 => (parts.cam1_early, parts.cam1_late),
        Channel::Cam2 => (parts.cam2_early, parts.cam2_late),
    };
    let slots = parts.slots.as_slice().len() as i64;
    (i64::from(early) * slots, i64::from(late) * slots)
}

/// The angle of an edge, drawn from those of its range that are not before `free`.
fn draw_next(
    wheel: &Wheel,
    edges: &Edges,
    channel: Channel,
    edge: u64,
    free: i64,
    generator: &mut Lcg64Xsh32,
) -> i64
    requires table { AreEdgesOf wheel.now.parts edges.now }
    requires present { 0 < edge_count wheel.now.parts channel }
    requires few { edge ≤ 2 ^ 23 }
    requires some { free ≤ℤ last_angle wheel.now.parts channel (pos edge) }
    ensures value { result ≡ drawn_angle (int_max (first_angle wheel.now.parts channel (pos edge)) free)
        (last_angle wheel.now.parts channel (pos edge)) generator.old }
    ensures small { unsigned_abs result ≤ 2 ^ 58 }
    ensures after { generator.new ≡ after_draw generator.old }
{
    let (early, late) = phasing(wheel, channel);
    let nominal = angle(wheel, edges, channel, edge);
    draw_angle(generator, (nominal - early).max(free), nominal + late)
}

/// How many edges of a channel a cycle has before a slot.
fn edges_before(edges: &Edges, channel: Channel, slot: u32) -> u32
    ensures { (parts : Parts) → AreEdgesOf parts edges.now
        → result ≡ length (filter (λ k. nat_lt k slot) (edge_slots parts channel)) }
{
    let mut before = 0;
    for n in 0..edges.cam_count(channel) {
        if edges.cam_slot(channel, n) < slot {
            before += 1;
        }
    }
    before
}

/// The number of the stream from which a channel's numbers are drawn.
fn stream(channel: Channel) -> u64
    ensures { result ≡ stream_of channel }
{
    match channel {
        Channel::Crank => 0,
        Channel::Cam1 => 1,
        Channel::Cam2 => 2,
    }
}

/// A cam before its first edge in a stimulus that begins at this crank edge.
pub fn first_cam(wheel: &Wheel, plan: &Plan, channel: Channel, from: CrankEdge) -> Cam
    requires plan { IsPlan wheel.now.parts plan.now }
    requires edge { IsCrankEdge wheel.now.parts plan.now.seed from }
    requires first { from.number ≡ 0 }
    ensures cam { IsCam wheel.now.parts channel plan.now.seed result }
    ensures none_passed { result.passed ≡ 0 }
    ensures ahead { IfSome result.next (λ next. from.angle ≤ℤ next) }
{
    let edges = &plan.edges;
    let mut generator = generator(plan.seed, stream(channel));
    let slot = edges.crank_slot(from.edge as u32);
    let first = u64::from(edges_before(edges, channel, slot));
    if edges.cam_count(channel) == 0 {
        return Cam {
            first,
            passed: 0,
            next: None,
            generator,
        };
    }
    let next = draw_next(wheel, edges, channel, first, from.angle, &mut generator);
    Cam {
        first,
        passed: 0,
        next: Some(next),
        generator,
    }
}

impl Cam {
    /// Passes the cam's next edge, at an angle, and gives its polarity.
    fn pass(&mut self, wheel: &Wheel, plan: &Plan, channel: Channel, angle: i64) -> Pol
        requires plan { IsPlan wheel.now.parts plan.now }
        requires cam { IsCam wheel.now.parts channel plan.now.seed self.old }
        requires at { self.old.next ≡ Some angle }
        requires few { self.old.passed ≤ 4_000_000 }
        ensures cam { IsCam wheel.now.parts channel plan.now.seed self.new }
        ensures passed { self.new.passed ≡ suc self.old.passed }
        ensures present { 0 < edge_count wheel.now.parts channel }
        ensures at { cam_angle wheel.now.parts channel plan.now.seed self.old.passed ≡ angle }
        ensures clear { angle <ℤ cam_angle wheel.now.parts channel plan.now.seed self.new.passed }
        ensures polarity { result ≡ pol_of wheel.now.parts channel (cam_edge wheel.now.parts channel plan.now.seed self.old.passed) }
    {
        let edge = self.first + u64::from(self.passed);
        let next = draw_next(
            wheel,
            &plan.edges,
            channel,
            edge + 1,
            angle + 1,
            &mut self.generator,
        );
        self.passed += 1;
        self.next = Some(next);
        polarity(wheel, &plan.edges, channel, edge)
    }

    /// Passes the cam's next edge if it is at the angle, and gives its polarity.
    pub fn pass_at(
        &mut self,
        wheel: &Wheel,
        plan: &Plan,
        channel: Channel,
        angle: i64,
    ) -> Option<Pol>
        requires plan { IsPlan wheel.now.parts plan.now }
        requires cam { IsCam wheel.now.parts channel plan.now.seed self.old }
        requires ahead { IfSome self.old.next (λ next. angle ≤ℤ next) }
        requires few { self.old.passed ≤ 4_000_000 }
        ensures cam { IsCam wheel.now.parts channel plan.now.seed self.new }
        ensures takes { Takes wheel.now.parts channel plan.now.seed self.old.passed angle result self.new.passed }
        ensures clear { 0 < edge_count wheel.now.parts channel
            → angle <ℤ cam_angle wheel.now.parts channel plan.now.seed self.new.passed }
        ensures there { self.old.next ≡ Some angle → IsSome result }
        ensures more { self.new.passed ≤ self.old.passed + 1 }
    {
        if self.next == Some(angle) {
            Some(self.pass(wheel, plan, channel, angle))
        } else {
            None
        }
    }
}
