//! Laws of the walk over a sound image.
ghost use Rattle.sound_walk.specs.Laws.{ClassesAreTheWheels, LongGapsKeepNoLimit, LettersAreTheWheels, StatesHoldEnds};
ghost use Rattle.sound_walk.specs.Laws.{StateZeroIsLost, KindsSayEnds, KnownKindsSayEnds, StartsAreSmall};
ghost use Rattle.sound_walk.specs.Laws.{EachIsRight, ReportIsRight, KnownReportIsRight};
ghost use Rattle.sound_walk.specs.Laws.{CompiledAreSound, CompiledReportIsRight};

/// A sound image has the columns of its wheel's alphabet, and an instant's gaps have their classes, cut down to 64 bits or not.
pub fn classes_are_the_wheels()
    ensures { ClassesAreTheWheels }
{}

/// A gap that is cut down keeps no limit of speed.
pub fn long_gaps_keep_no_limit()
    ensures { LongGapsKeepNoLimit }
{}

/// The letters that the walk takes for an instant are the alphabet's: the class of the gap's time and that of its ratio to the gap
/// before, as far as its window has such gaps, and the shape.
pub fn letters_are_the_wheels()
    ensures { LettersAreTheWheels }
{}

/// The walk's state holds exactly the places where the motions end that give the instants of its window, and has their phase.
pub fn states_hold_ends()
    ensures { StatesHoldEnds }
{}

/// An instant's letters lead to state 0 exactly where no motion gives the window's instants.
pub fn state_zero_is_lost()
    ensures { StateZeroIsLost }
{}

/// The kind that the walk answers says where the motions end that give the window's instants. So it does where it is only known that
/// the image is sound, as an audit tells it.
pub fn kinds_say_ends()
    ensures says { KindsSayEnds }
    ensures known { KnownKindsSayEnds }
{}

/// Where motions began that end at a place, no index of their start is past the range of an image's places: a report that cuts such an
/// index down to 32 bits prints it whole.
pub fn starts_are_small()
    ensures { StartsAreSmall }
{}

/// The walk's report is that of the wheel: its verdicts are those of the instants, and its windows begin where theirs do, at each
/// instant and over a whole list. So it is where it is only known that the image is sound.
pub fn report_is_right()
    ensures each { EachIsRight }
    ensures whole { ReportIsRight }
    ensures known { KnownReportIsRight }
{}

/// The compiled image of a wheel is sound, and the report of its walk is that of the wheel.
pub fn compiled_images_are_sound()
    ensures sound { CompiledAreSound }
    ensures report { CompiledReportIsRight }
{}
