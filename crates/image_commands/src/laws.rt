//! Laws of the commands. Each function does nothing; its contract says the law.
ghost use Rattle.image_commands.specs.Ending.{AuditsEnd};
ghost use Rattle.image_commands.specs.TraceEnding.{TracesEnd};

/// By how an audit ends, what its file and its image give, and what `out` got.
pub fn audits_end()
    ensures { AuditsEnd }
{}

/// By how a trace ends, what its files give, and what `out` got.
pub fn traces_end()
    ensures { TracesEnd }
{}
