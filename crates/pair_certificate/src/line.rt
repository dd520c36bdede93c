//! The lines of a certificate.
use wheel_types::{List, Place};

/// What a line of a certificate says of the position, with the places where motions begin that show it.
#[derive(Clone, Copy, Debug, PartialEq, Eq)]
pub enum CertKind {
    /// A motion from `a` ends at the one position.
    At { a: Place },
    /// Motions from `a` and `b` end at different positions.
    Open { a: Place, b: Place },
    /// No motion gives the instants.
    Lost,
}

/// One line of a certificate.
#[derive(Debug, Drop)]
pub struct CertLine {
    /// The instant's number, from 1.
    pub index: u64,
    /// What the line says of the position.
    pub kind: CertKind,
    /// Places, ascending, among which every motion ends that gives the instants.
    pub cover: List<Place>,
}
