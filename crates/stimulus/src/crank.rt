//! The crank edges of a stimulus, one after the other.
ghost use Rattle.std.specs.Prelude.{◌≡◌, ◌≢◌, ◌≤◌, ◌<◌, suc, pos, IfOk, IfErr, OnOk};
ghost use Rattle.wheel_types.specs.Edges.{slot_count};
ghost use Rattle.stimulus.specs.Draws.{generator_of, after_draw, drawn};
ghost use Rattle.stimulus.specs.Gaps.{least_after, greatest_after, HasTimes};
ghost use Rattle.stimulus.specs.GapsOf.{gap_of, IsGapIf};
ghost use Rattle.stimulus.specs.Cams.{IsInGap, time_in};
ghost use Rattle.stimulus.specs.Causes.{Says};
ghost use Rattle.stimulus.specs.Cranks.{IsCrankEdge, IsAfter, IsEmpty, gap_generator};
ghost use Rattle.stimulus.specs.Plans.{IsPlan};

use crate::angle::{angle, slots_after};
use crate::draws::{draw, generator};
use crate::fault::StimFault;
use crate::gap::{Gap, greatest_after_gap, least_after_gap};
use crate::plan::Plan;
use rand_pcg::Lcg64Xsh32;
use wheel_types::{Channel, Wheel};

/// The time of the first crank edge, in femtoseconds.
const FIRST_TIME: u128 = 1_000_000_000_000;

/// A crank edge of a stimulus.
#[derive(Clone, Copy, Debug)]
pub struct CrankEdge {
    /// Its number in the stimulus, from 0.
    pub number: u32,
    /// Its number among the edges of the wheel, counted on through all cycles.
    pub edge: u64,
    /// Its angle, in units of which a millidegree has as many as the wheel has slots.
    pub angle: i64,
    /// Its time in femtoseconds.
    pub time: u128,
    /// The gap before it, if there is one.
    pub before: Option<Gap>,
}

/// The first crank edge of a stimulus, by the crank's generator.
pub fn first_crank_edge(wheel: &Wheel, plan: &Plan, generator: &mut Lcg64Xsh32) -> CrankEdge
    requires plan { IsPlan wheel.now.parts plan.now }
    requires generator { generator.old ≡ generator_of plan.now.seed 0 }
    ensures edge { IsCrankEdge wheel.now.parts plan.now.seed result }
    ensures first { result.number ≡ 0 }
    ensures after { generator.new ≡ gap_generator plan.now.seed 0 }
{
    let edge = draw(generator, 0, u64::from(plan.edges.crank_count()) - 1);
    CrankEdge {
        number: 0,
        edge,
        angle: angle(wheel, &plan.edges, Channel::Crank, edge),
        time: FIRST_TIME,
        before: None,
    }
}

/// The time of so many slots after a gap or none, drawn between the limits.
///
/// # Errors
/// `Stuck` where no time is between them.
fn draw_time(
    wheel: &Wheel,
    number: u32,
    before: Option<Gap>,
    slots: u32,
    generator: &mut Lcg64Xsh32,
) -> Result<u64, StimFault>
    requires gap { IsGapIf wheel.now.parts before }
    requires some_slots { 1 ≤ slots }
    requires slots_of_wheel { slots ≤ slot_count wheel.now.parts }
    ensures some { OnOk result (least_after wheel.now.parts (gap_of before) slots ≤ greatest_after wheel.now.parts (gap_of before) slots) }
    ensures time { IfOk result (λ time. time
        ≡ drawn (least_after wheel.now.parts (gap_of before) slots) (greatest_after wheel.now.parts (gap_of before) slots) generator.old) }
    ensures after { OnOk result (generator.new ≡ after_draw generator.old) }
    ensures none { IfErr result (λ fault. IsEmpty wheel.now.parts number before slots fault) }
{
    let low = least_after_gap(wheel, before, slots);
    let high = greatest_after_gap(wheel, before, slots);
    if low > high {
        return Err(StimFault::Stuck {
            gap: number,
            low,
            high,
        });
    }
    Ok(draw(generator, low, high))
}

/// The crank edge after another one.
///
/// # Errors
/// `Stuck` where the gap between them has no time.
pub fn next_crank_edge(
    wheel: &Wheel,
    plan: &Plan,
    last: CrankEdge,
    generator: &mut Lcg64Xsh32,
) -> Result<CrankEdge, StimFault>
    requires plan { IsPlan wheel.now.parts plan.now }
    requires edge { IsCrankEdge wheel.now.parts plan.now.seed last }
    requires generator { generator.old ≡ gap_generator plan.now.seed last.number }
    requires within { last.number < plan.now.gaps }
    ensures edge { IfOk result (λ next. IsCrankEdge wheel.now.parts plan.now.seed next) }
    ensures next { IfOk result (λ next. IsAfter last next) }
    ensures after { OnOk result (generator.new ≡ gap_generator plan.now.seed (suc last.number)) }
    ensures stuck { IfErr result (λ fault. Says wheel.now.parts plan.now.seed plan.now.gaps fault) }
    ensures only_stuck { IfErr result (λ fault. fault ≢ StimFault.TooManyEdges) }
{
    let slots = slots_after(wheel, &plan.edges, last.edge);
    let time = draw_time(wheel, last.number, last.before, slots, generator)?;
    let edge = last.edge + 1;
    Ok(CrankEdge {
        number: last.number + 1,
        edge,
        angle: angle(wheel, &plan.edges, Channel::Crank, edge),
        time: last.time + u128::from(time),
        before: Some(Gap { slots, time }),
    })
}

/// The time at an angle between two crank edges, in femtoseconds: angles pass evenly there. It is rounded down.
pub fn time_at(wheel: &Wheel, plan: &Plan, from: CrankEdge, to: CrankEdge, angle: i64) -> i128
    requires from { IsCrankEdge wheel.now.parts plan.now.seed from }
    requires to { IsCrankEdge wheel.now.parts plan.now.seed to }
    requires next { IsAfter from to }
    requires gap { IsInGap wheel.now.parts plan.now.seed from.number angle }
    ensures { result ≡ pos (time_in wheel.now.parts plan.now.seed from.number angle) }
{
    let part = u128::from(angle.abs_diff(from.angle));
    let width = u128::from(to.angle.abs_diff(from.angle));
    (from.time + (to.time - from.time) * part / width) as i128
}

/// Finds that each gap of a stimulus has a time.
///
/// # Errors
/// `Stuck` of the first gap that has none.
pub fn refuse_stuck(wheel: &Wheel, plan: &Plan) -> Result<(), StimFault>
    requires { IsPlan wheel.now.parts plan.now }
    ensures timed { OnOk result (HasTimes wheel.now.parts plan.now.seed plan.now.gaps) }
    ensures stuck { IfErr result (λ fault. Says wheel.now.parts plan.now.seed plan.now.gaps fault) }
    ensures only_stuck { IfErr result (λ fault. fault ≢ StimFault.TooManyEdges) }
{
    let mut generator = generator(plan.seed, 0);
    let mut edge = first_crank_edge(wheel, plan, &mut generator);
    for _ in 0..plan.gaps {
        edge = next_crank_edge(wheel, plan, edge, &mut generator)?;
    }
    Ok(())
}
