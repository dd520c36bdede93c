//! Laws of captures in CSV. The functions do nothing; their contracts say the laws.
ghost use Rattle.csv_capture.specs.Laws.{StampsRise};

/// The stamps of every file are a capture's: their times rise.
pub fn stamps_rise()
    ensures { StampsRise }
{}
