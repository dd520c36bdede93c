//! Laws of reports and of runs. Each function does nothing; its contract says the law.
ghost use Rattle.wheelsync.specs.Endings.{ImportsEnd, ReplaysEnd};
ghost use Rattle.wheelsync.specs.Laws.{CertifiedLinesAreTheReport, OneReport};

/// The report is determined by the bytes of the model and of the capture.
pub fn one_report()
    ensures { OneReport }
{}

/// What a replay writes on `out` beside a certificate is the report.
pub fn certified_lines_are_the_report()
    ensures { CertifiedLinesAreTheReport }
{}

/// By how a replay ends, what its files give, and what `out` got.
pub fn replays_end()
    ensures { ReplaysEnd }
{}

/// By how an import ends, what its source gives, and what `out` got.
pub fn imports_end()
    ensures { ImportsEnd }
{}
