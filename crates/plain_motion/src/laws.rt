//! Laws of verdicts, windows, start places and end places.
ghost use Rattle.plain_motion.specs.Laws.{OneKind, OneWindow, EndsAreSteps, OneVerdict, VerdictsAreOne, StartAndEnd, VerdictsExist};

/// Two verdicts of the same instants are of one kind, and at one position.
pub fn one_kind()
    ensures { OneKind }
{}

/// The instants determine the window that the next one comes into.
pub fn one_window()
    ensures { OneWindow }
{}

/// One more instant leads motions along the legal steps of their end places, and along no others.
pub fn ends_are_steps()
    ensures { EndsAreSteps }
{}

/// Given instants have one verdict, with its places.
pub fn one_verdict()
    ensures { OneVerdict }
{}

/// Given instants have one list of verdicts, and lead to one window.
pub fn verdicts_are_one()
    ensures { VerdictsAreOne }
{}

/// Over given instants the place where a motion starts and the place where it ends determine each other.
pub fn start_and_end()
    ensures { StartAndEnd }
{}

/// On every wheel, instants whose times rise have verdicts.
pub fn verdicts_exist()
    ensures { VerdictsExist }
{}
