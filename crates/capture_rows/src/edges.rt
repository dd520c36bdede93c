//! The texts of instants.

use std::alloc::AllocError;
use wheel_types::{Instant, Pol};

/// The sign of an edge after its channel's letter, or nothing where there is none.
fn mark(edge: Option<Pol>, rise: &'static str, fall: &'static str) -> &'static str {
    match edge {
        Some(Pol::Rise) => rise,
        Some(Pol::Fall) => fall,
        None => "",
    }
}

/// Adds an instant's time and its edges: `C` for the crank's, `1` and `2` for the cams'.
pub fn push_instant(told: &mut String, instant: Instant) -> Result<(), AllocError> {
    let crank = mark(instant.crank, "C+", "C-");
    let cam1 = mark(instant.cam1, "1+", "1-");
    let cam2 = mark(instant.cam2, "2+", "2-");
    write!(told, "{} {crank}{cam1}{cam2}; ", instant.time)
}
