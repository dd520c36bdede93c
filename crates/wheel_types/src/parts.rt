//! What a wheel is made of.

use crate::{Keep, List};

/// The parts of a wheel, whether or not they make one.
///
/// `slots` holds a value for each slot of the cycle of `degrees` degrees: bit 0 is the level of the crank
/// channel, bit 1 of the first cam, bit 2 of the second. `early` and `late` are the phasing of a cam in
/// millidegrees, `rpm_low` and `rpm_high` limit the crank's speed in turns a minute, and `rn / rd` limits the
/// ratio of the speeds of two successive gaps.
#[derive(Debug, Drop)]
pub struct WheelParts {
    pub degrees: u32,
    pub slots: List<u8>,
    pub crank: Keep,
    pub cam1: Keep,
    pub cam2: Keep,
    pub cam1_early: u32,
    pub cam1_late: u32,
    pub cam2_early: u32,
    pub cam2_late: u32,
    pub rpm_low: u32,
    pub rpm_high: u32,
    pub rn: u32,
    pub rd: u32,
}
