//! Laws of captures. The functions do nothing; their contracts say the laws.
ghost use Rattle.capture_core.specs.Laws.{InstantsAreChanges, InstantsRise, LongerBeginAlike};

/// The instants at closed stamps are those of exactly the kept changes there.
pub fn instants_are_changes()
    ensures { InstantsAreChanges }
{}

/// Where the times of stamps rise, so do those of the capture's instants.
pub fn instants_rise()
    ensures { InstantsRise }
{}

/// The instants of a longer list of stamps begin with those of the shorter.
pub fn longer_begin_alike()
    ensures { LongerBeginAlike }
{}
