//! Laws of stimuli. The functions do nothing; their contracts say the laws.
ghost use Rattle.stimulus.specs.Laws.{FirstIsLeast, NeverLost, OneStimulus, PolaritiesAlternate, StimuliAreWritable, StimuliExist};

/// A cam begins with its least edge at the angle of the first crank edge or after it.
pub fn first_is_least()
    ensures { FirstIsLeast }
{}

/// Where each gap has a time between its limits, there is a stimulus: instants that a permitted motion gives, which makes exactly the
/// drawn moves. The instants have exactly the drawn edges, each at its time and with its polarity.
pub fn stimuli_exist()
    ensures { StimuliExist }
{}

/// A wheel, a seed and a number of gaps have one stimulus at most.
pub fn one_stimulus()
    ensures { OneStimulus }
{}

/// No instant of a stimulus is lost.
pub fn never_lost()
    ensures { NeverLost }
{}

/// A channel that keeps both polarities has them in turn.
pub fn polarities_alternate()
    ensures { PolaritiesAlternate }
{}

/// Both files of a stimulus of at most 1,000,000 gaps can be written, where each gap has a time between its limits: no time is past
/// 10^24 femtoseconds; the changes of each watched channel come after time 0, one after the other; and its edges are of kept
/// polarities, in turn where both are kept, and two femtoseconds apart at least.
pub fn stimuli_are_writable()
    ensures { StimuliAreWritable }
{}
