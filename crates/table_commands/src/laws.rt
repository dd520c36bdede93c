//! Laws of the commands. Each function does nothing; its contract says the law.
ghost use Rattle.table_commands.specs.Laws.{OneSize};
ghost use Rattle.table_commands.specs.Ending.{SizesEnd};

/// The line of the sizes is determined by the bytes of the wheel's file.
pub fn one_size()
    ensures { OneSize }
{}

/// By how a size ends, what its file and its wheel give, and what `out` got.
pub fn sizes_end()
    ensures { SizesEnd }
{}
