//! The walks of a list with the least end places.
ghost use Rattle.std.specs.Prelude.{◌≡◌, ◌⊎◌, IfSome, Some};
ghost use Rattle.wheel_types.specs.Verdicts.{IsBefore};
ghost use Rattle.plain_motion.specs.Ends.{IsLeastBut};

use crate::window::Walk;

/// The walk with the least of the end places that are not at this position, if there is one.
pub fn least(walks: &[Walk], position: Option<u32>) -> Option<Walk>
    ensures { IsLeastBut walks.now position result }
{
    let mut least = None;
    for walk in walks {
        if position != Some(walk.end.j) {
            least = Some(lesser(least, *walk));
        }
    }
    least
}

/// The one of two walks with the lesser end place, where there are two.
fn lesser(least: Option<Walk>, walk: Walk) -> Walk
    ensures one { (result ≡ walk) ⊎ (least ≡ Some result) }
    ensures first { IfSome least (λ other. IsBefore result.end other.end) }
    ensures second { IsBefore result.end walk.end }
{
    match least {
        Some(other) => { if other.end <= walk.end { other } else { walk } }
        None => walk,
    }
}
