//! Laws of places, of walks over them, and of the motion that a start place names.
ghost use Rattle.cam_ranges.specs.Laws.{AngleLaw, OneNamedMotion, WheelsHavePlaces};

/// Each wheel has a place.
pub fn wheels_have_places()
    ensures { WheelsHavePlaces }
{}

/// Angles that never fall and pass channels in turn, as a motion does, exist exactly where every place of the walk
/// stands. The least angles of these places are then such angles.
pub fn angle_law()
    ensures { AngleLaw }
{}

/// The start place of a permitted motion names one motion, which is permitted and gives the same instants.
pub fn one_named_motion()
    ensures { OneNamedMotion }
{}
