//! What an image is made of.

use crate::kind::Kind;
use wheel_types::{Place, WheelParts};

/// The parts of an image. Each list is a section; `phases` and `kinds` are one section together.
#[derive(Drop)]
pub struct ImageParts {
    /// The wheel, of the header and the slots.
    pub wheel: WheelParts,
    /// The places, ascending.
    pub places: Vec<Place>,
    /// The time cuts in femtoseconds, ascending.
    pub time_cuts: Vec<u64>,
    /// The ratio cuts as top and bottom, ascending as fractions.
    pub ratio_cuts: Vec<(u32, u32)>,
    /// The phase of each state, from 0 to 5.
    pub phases: Vec<u8>,
    /// The kind of each state.
    pub kinds: Vec<Kind>,
    /// The sets of places, state after state: bit i of word k is place 64 * k + i.
    pub members: Vec<u64>,
    /// The rows, state after state: the state that each column leads to.
    pub rows: Vec<u16>,
}
