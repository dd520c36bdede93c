//! Laws of what is read back. The functions do nothing; their contracts say the laws.
ghost use Rattle.stimulus_read.specs.ReadBack.{CsvReadsBack, DumpsReadBack, RowsReadBack, TablesReadBack, TimesReadBack, VcdReadsBack};

/// The value change dump of rising instants reads back as exactly these instants and a clean end. It asks that each channel's edges can
/// be written: of kept polarities, in turn where both are kept, two femtoseconds apart, after time 0 and at most at 10^24 fs.
pub fn dumps_read_back()
    ensures { DumpsReadBack }
{}

/// A time in seconds with 15 decimals, as rows have it, reads back as its femtoseconds.
pub fn times_read_back()
    ensures { TimesReadBack }
{}

/// A row of a file of comma-separated values reads back as its fields.
pub fn rows_read_back()
    ensures { RowsReadBack }
{}

/// The file of comma-separated values of such instants reads back as exactly these instants and a clean end. It asks the same of them
/// as the value change dump.
pub fn tables_read_back()
    ensures { TablesReadBack }
{}

/// The file of comma-separated values of every stimulus of at most 1,000,000 gaps, each with a time between its limits, reads back under
/// the default names as exactly its instants and a clean end.
pub fn csv_reads_back()
    ensures { CsvReadsBack }
{}

/// The value change dump of every stimulus of at most 1,000,000 gaps, each with a time between its limits, reads back under the default
/// names as exactly its instants and a clean end.
pub fn vcd_reads_back()
    ensures { VcdReadsBack }
{}
