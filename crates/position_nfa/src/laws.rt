//! Laws of letters.
ghost use Rattle.position_nfa.specs.Laws.{LettersAreSteps, TimeClassesAreLimits, RatioClassesAreLimits, TimeClassZeroKeepsNone};
ghost use Rattle.position_nfa.specs.Laws.{TimeClassesHaveTimes, RatioClassesHaveTimes};
ghost use Rattle.position_nfa.specs.StepLaws.{OtherLettersLeadNowhere, StepsMakeSets, LegalStepsAreOne};

/// The letters of an instant, which are the classes of its gap and then its shape, lead from a set of places exactly to the legal
/// steps of its places, where the times of the window rise.
pub fn letters_are_steps()
    ensures { LettersAreSteps }
{}

/// The places that a class of times or of ratios keeps are those whose gaps may take such times.
pub fn classes_are_limits()
    ensures times { TimeClassesAreLimits }
    ensures ratios { RatioClassesAreLimits }
{}

/// Each class has a time, or two, at which the gaps of places keep the limits exactly where the class keeps the places.
pub fn classes_have_times()
    ensures times { TimeClassesHaveTimes }
    ensures ratios { RatioClassesHaveTimes }
{}

/// Letters that are none of a state's phase lead nowhere.
pub fn other_letters_lead_nowhere()
    ensures { OtherLettersLeadNowhere }
{}

/// A step from a set leads to what the letter makes of the set.
pub fn steps_make_sets()
    ensures { StepsMakeSets }
{}

/// A place has at most one legal step at an instant.
pub fn legal_steps_are_one()
    ensures { LegalStepsAreOne }
{}

/// Time class 0 keeps no place.
pub fn time_class_zero_keeps_none()
    ensures { TimeClassZeroKeepsNone }
{}
