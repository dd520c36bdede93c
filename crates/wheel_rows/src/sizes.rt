//! Sizes of set automata.

use cam_ranges::PlaceFault;
use position_nfa::Nfa;
use std::alloc::{AllocError, Global};
use subset_build::{BuildFault, build};
use wheel_types::Wheel;

/// What is told of a wheel's automaton whose states are to be within a limit.
fn told_of_states(alloc: Global, nfa: &Nfa, limit: u32) -> Result<String, AllocError> {
    let places = nfa.place_count();
    let times = nfa.cuts().time_count();
    let ratios = nfa.cuts().ratio_count();
    match build(alloc, nfa, limit) {
        Ok(automaton) => {
            let states = automaton.count();
            format!(in alloc;
                "places {places} time-cuts {times} ratio-cuts {ratios} states {states}"
            )
        }
        Err(BuildFault::TooLarge { limit }) => format!(in alloc; "limit: states {limit}"),
        Err(BuildFault::Memory) => Err(AllocError),
    }
}

/// The sizes of a wheel's set automaton, or the limit that they are past.
pub fn told_of_size(
    alloc: Global,
    wheel: &Wheel,
    numbers: &[u64],
) -> Result<Option<String>, AllocError> {
    let [limit] = numbers else {
        return Ok(None);
    };
    let Ok(limit) = u32::try_from(*limit) else {
        return Ok(None);
    };
    match Nfa::build(alloc, wheel) {
        Ok(nfa) => Ok(Some(told_of_states(alloc, &nfa, limit)?)),
        Err(PlaceFault::TooMany) => Ok(Some(format!(in alloc; "limit: places")?)),
        Err(PlaceFault::Memory) => Err(AllocError),
    }
}
