//! The order of places.
ghost use Rattle.std.specs.Prelude.{◌↔◌, IsTrue};
ghost use Rattle.cam_ranges.specs.Places.{IsLess};

use wheel_types::Place;

/// Whether the one place stands before the other, another one: by position, then by the first cam's edge, then by the second's.
/// It takes no memory.
pub fn is_less(place: Place, other: Place) -> bool
    ensures { IsTrue result ↔ IsLess place other }
{
    if place.j != other.j {
        return place.j < other.j;
    }
    if place.n1 != other.n1 {
        return place.n1 < other.n1;
    }
    place.n2 < other.n2
}
