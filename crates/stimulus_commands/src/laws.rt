//! Laws of the commands. Each function does nothing; its contract says the law.
ghost use Rattle.stimulus_commands.specs.Ending.{StimsEnd};
ghost use Rattle.stimulus_commands.specs.SelfEnding.{SelfsEnd};
ghost use Rattle.stimulus_commands.specs.Laws.{NoSelfIsLost};

/// By how a stim ends, what its file and its wheel give, and what the file got that it makes.
pub fn stims_end()
    ensures { StimsEnd }
{}

/// By how a self ends, what its file and its wheel give, and what `out` got.
pub fn selfs_end()
    ensures { SelfsEnd }
{}

/// A self over a wheel tells that no instant is lost.
pub fn no_self_is_lost()
    ensures { NoSelfIsLost }
{}
