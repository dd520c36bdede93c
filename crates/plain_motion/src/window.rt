//! What the instants since the last reset leave behind.

use legal_steps::CrankTimes;
use wheel_types::{List, Place};

/// The place where motions begin that give a window's instants, and the place where they end.
#[derive(Clone, Copy, Debug)]
pub struct Walk {
    pub start: Place,
    pub end: Place,
}

/// A window: the walks of the motions that give its instants, each once, by ascending start; whether it has an instant, and the
/// times of its last crank edges.
#[derive(Drop)]
pub struct Window {
    pub walks: List<Walk>,
    pub begun: bool,
    pub times: CrankTimes,
}
