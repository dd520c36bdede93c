//! A law of the command. The function does nothing; its contract says the law.
ghost use Rattle.compile_command.specs.Ending.{CompilesEnd};

/// By how a compile ends, what its file and its wheel give, and what the image's file got.
pub fn compiles_end()
    ensures { CompilesEnd }
{}
