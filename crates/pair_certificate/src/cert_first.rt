//! A first reading of a certificate's line, which takes more than its grammar.
ghost use Rattle.std.specs.Prelude.{◌≡◌, IfOk, IfSome, MatchOption};
ghost use Rattle.std.specs.Option.{option_map};
ghost use Rattle.pair_certificate.specs.FirstCertificates as first;
ghost use Rattle.pair_certificate.specs.Reports.{IsKindInRange};

use crate::line::CertKind;
use crate::numbers::{after_text, number_at, place_at};
use std::alloc::Global;
use wheel_types::{List, Memory, Place};

/// The place at the front, and what follows it.
#[tactic(auto, unfolding(crate::specs::FirstCertificates::at_kind))]
fn at_kind(bytes: &[u8]) -> Option<(CertKind, &[u8])>
    ensures value { option_map (λ x. (x.0, x.1.now)) result ≡ first.at_kind bytes.now }
    ensures range { IfSome result (λ x. IsKindInRange x.0) }
{
    let (a, rest) = place_at(bytes)?;
    Some((CertKind::At { a }, rest))
}

/// The two places at the front, and what follows them.
#[tactic(auto, unfolding(crate::specs::FirstCertificates::open_kind))]
fn open_kind(bytes: &[u8]) -> Option<(CertKind, &[u8])>
    ensures value { option_map (λ x. (x.0, x.1.now)) result ≡ first.open_kind bytes.now }
    ensures range { IfSome result (λ x. IsKindInRange x.0) }
{
    let (a, rest) = place_at(bytes)?;
    let rest = after_text(rest, b" ")?;
    let (b, rest) = place_at(rest)?;
    Some((CertKind::Open { a, b }, rest))
}

/// The kind at the front, and what follows it.
#[tactic(auto, unfolding(crate::specs::FirstCertificates::kind_at))]
fn kind_at(bytes: &[u8]) -> Option<(CertKind, &[u8])>
    ensures value { option_map (λ x. (x.0, x.1.now)) result ≡ first.kind_at bytes.now }
    ensures range { IfSome result (λ x. IsKindInRange x.0) }
{
    if let Some(rest) = after_text(bytes, b"at ") {
        return at_kind(rest);
    }
    if let Some(rest) = after_text(bytes, b"open ") {
        return open_kind(rest);
    }
    let rest = after_text(bytes, b"lost")?;
    Some((CertKind::Lost, rest))
}

/// The index and the kind of a line, and what follows the colon.
#[tactic(auto, unfolding(crate::specs::FirstCertificates::head_at))]
pub fn head_at(bytes: &[u8]) -> Option<(u64, CertKind, &[u8])>
    ensures value { option_map (λ x. (x.0, x.1, x.2.now)) result ≡ first.head_at bytes.now }
    ensures range { IfSome result (λ x. IsKindInRange x.1) }
{
    let (index, rest) = number_at(bytes, u128::from(u64::MAX))?;
    let rest = after_text(rest, b" ")?;
    let (kind, rest) = kind_at(rest)?;
    let rest = after_text(rest, b" :")?;
    Some((index as u64, kind, rest))
}

/// The places of a cover, as far as they go, where a place follows each space.
pub fn cover_of(alloc: Global, bytes: &[u8]) -> Result<Option<List<Place>>, Memory>
    ensures { IfOk result (λ cover. MatchOption cover (first.IsNoCover bytes.now) (λ places. first.IsOnlyCover bytes.now places)) }
{
    let mut cover = Vec::new(alloc);
    let mut rest = bytes;
    while let Some(next) = after_text(rest, b" ") {
        let Some((place, after)) = place_at(next) else {
            return Ok(None);
        };
        cover.push(place)?;
        rest = after;
    }
    Ok(Some(List::from_vec(cover)))
}
