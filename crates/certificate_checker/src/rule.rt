//! The rules of a certificate, and what a check answers.
ghost use Rattle.std.specs.Prelude.{◌≡◌};
ghost use Rattle.certificate_checker.specs.Numbers.{number_of};

/// The rules of a certificate, in the order in which they are tested.
#[derive(Clone, Copy, Debug, PartialEq, Eq)]
pub enum Rule {
    /// Report, certificate and capture have equally many entries.
    Counts,
    /// The report's line has the instant's number, time and shape.
    ReportLine,
    /// The certificate's line has the instant's number and the report's kind of verdict.
    CertLine,
    /// The cover ascends, and each of its places stands.
    Cover,
    /// The cover holds every legal step of the cover before; a lost instant has none.
    Steps,
    /// Every place of the cover is at the report's position, and the slot is its edge's.
    Position,
    /// The start places make legal walks.
    Starts,
    /// The report names the start places, and their walks end at the least places of the cover.
    LeastEnds,
    /// The cover of a lost instant holds the steps that begin the next window.
    Loss,
}

impl Rule {
    /// The rule's number, from 1 to 9.
    pub fn number(self) -> u32
        ensures { result ≡ number_of self }
    {
        match self {
            Rule::Counts => 1,
            Rule::ReportLine => 2,
            Rule::CertLine => 3,
            Rule::Cover => 4,
            Rule::Steps => 5,
            Rule::Position => 6,
            Rule::Starts => 7,
            Rule::LeastEnds => 8,
            Rule::Loss => 9,
        }
    }
}

/// Whether a certificate is valid.
#[derive(Clone, Copy, Debug, PartialEq, Eq)]
pub enum Answer {
    /// Every rule holds at every instant.
    Yes,
    /// The first instant, from 1, with a broken rule, and the number, from 1 to 9, of its first one.
    No { instant: u64, rule: u32 },
}
