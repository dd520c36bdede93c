//! Rules of a certificate that ask for the lines of an instant alone.
ghost use Rattle.std.specs.Prelude.{◌≡◌, ◌≢◌, ◌↔◌, ℕ, IsTrue, All, Contains};
ghost use Rattle.wheel_types.specs.Verdicts.{IsBefore, IsLeast};
ghost use Rattle.wheel_types.specs.declared.place.Place.{Place as Spot};
ghost use Rattle.cam_ranges.specs.Places.{IsAscending};
ghost use Rattle.edge_angles.specs.EdgeTables.{AreEdgesOf};
ghost use Rattle.certificate_checker.specs.Rules.{HasReportLine, IsOfKind, HasCertLine, HasCover, HoldsPosition};
ghost use Rattle.certificate_checker.specs.Checking.{ArePlacesOf};

use cam_ranges::is_less;
use edge_angles::Edges;
use pair_certificate::{CertKind, CertLine};
use wheel_types::{Instant, Place, Report, Verdict, Wheel};

/// Whether the report's line has the instant's number, time and shape.
pub fn has_report_line(index: u64, instant: &Instant, report: &Report) -> bool
    ensures { IsTrue result ↔ HasReportLine index instant.now report.now }
{
    report.index == index
        && report.time == instant.time
        && report.shape.number() == instant.shape().number()
}

/// Whether a line of a certificate is of the verdict's kind.
fn is_of_kind(verdict: Verdict, kind: CertKind) -> bool
    ensures { IsTrue result ↔ IsOfKind verdict kind }
{
    match (verdict, kind) {
        (Verdict::At { .. }, CertKind::At { .. }) => true,
        (Verdict::Open { .. }, CertKind::Open { .. }) => true,
        (Verdict::Lost, CertKind::Lost) => true,
        _ => false,
    }
}

/// Whether the certificate's line has the instant's number and the report's kind of verdict.
pub fn has_cert_line(index: u64, report: &Report, line: &CertLine) -> bool
    ensures { IsTrue result ↔ HasCertLine index report.now line.now }
{
    line.index == index && is_of_kind(report.verdict, line.kind)
}

/// Whether one place is another.
pub fn is_same(place: Place, other: Place) -> bool
    ensures { IsTrue result ↔ (place ≡ other) }
{
    place == other
}

/// Whether the place is one of these, which ascend. They are halved until it is found, or none of them is left.
pub fn has_place(places: &[Place], place: Place) -> bool
    requires { IsAscending places.now }
    ensures { IsTrue result ↔ Contains places.now place }
{
    let mut low = 0;
    let mut high = places.len();
    while low < high {
        let middle = low + (high - low) / 2;
        if is_less(place, places[middle]) {
            high = middle;
        } else if is_same(places[middle], place) {
            return true;
        } else {
            low = middle + 1;
        }
    }
    false
}

/// Whether places strictly ascend.
fn ascends(places: &[Place]) -> bool
    ensures { IsTrue result ↔ IsAscending places.now }
{
    for (k, place) in places.iter().enumerate() {
        if 0 < k && !is_less(places[k - 1], *place) {
            return false;
        }
    }
    true
}

/// Whether each place of a cover is one of these, which ascend.
fn has_all(places: &[Place], cover: &[Place]) -> bool
    requires { IsAscending places.now }
    ensures { IsTrue result ↔ All (Contains places.now) cover.now }
{
    for place in cover {
        if !has_place(places, *place) {
            return false;
        }
    }
    true
}

/// Whether a cover strictly ascends, and each of its places is one of the wheel.
pub fn has_cover(wheel: &Wheel, places: &[Place], cover: &[Place]) -> bool
    requires places { ArePlacesOf wheel.now.parts places.now }
    requires ascend { IsAscending places.now }
    ensures { IsTrue result ↔ HasCover wheel.now.parts cover.now }
{
    ascends(cover) && has_all(places, cover)
}

/// Whether each place is at the position.
fn all_at(cover: &[Place], j: u32) -> bool
    ensures { IsTrue result ↔ All (λ (p : Spot). p.j ≡ j) cover.now }
{
    for place in cover {
        if place.j != j {
            return false;
        }
    }
    true
}

/// Whether a cover has no position but the verdict's, and the slot is that of its edge.
pub fn holds_position(wheel: &Wheel, edges: &Edges, verdict: Verdict, cover: &[Place]) -> bool
    requires { AreEdgesOf wheel.now.parts edges.now }
    ensures { IsTrue result ↔ HoldsPosition wheel.now.parts verdict cover.now }
{
    match verdict {
        Verdict::At { j, slot } => {
            all_at(cover, j) && j < edges.crank_count() && slot == edges.crank_slot(j)
        }
        _ => true,
    }
}
