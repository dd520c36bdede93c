//! Numbers, texts and places at the front of a line.
ghost use Rattle.std.specs.Prelude.{◌≡◌, ◌+◌, ◌≤◌, ◌^◌, ◌≤ℤ◌, neg_ℤ, pos, IfSome, length};
ghost use Rattle.std.specs.Option.{option_map};
ghost use Rattle.pair_certificate.specs.FirstFields as first;
ghost use Rattle.pair_certificate.specs.Reports.{IsPlaceInRange};

use capture_core::{is_digit, number_within};
use wheel_types::Place;

/// How many digits stand at the front.
fn digit_count(bytes: &[u8]) -> usize
    ensures count { result ≡ first.digit_count bytes.now }
    ensures within { result ≤ length bytes.now }
{
    for (k, byte) in bytes.iter().enumerate() {
        if !is_digit(*byte) {
            return k;
        }
    }
    bytes.len()
}

/// The number at the front, if it is at most this one, and what follows it.
pub fn number_at(bytes: &[u8], most: u128) -> Option<(u128, &[u8])>
    requires { most ≤ 10 ^ 24 }
    ensures value { option_map (λ x. (x.0, x.1.now)) result ≡ first.number_at most bytes.now }
    ensures most { IfSome result (λ x. x.0 ≤ most) }
    ensures shorter { IfSome result (λ x. length x.1.now ≤ length bytes.now) }
{
    let count = digit_count(bytes);
    if count == 0 {
        return None;
    }
    match number_within(0, &bytes[..count], most) {
        Some(number) => Some((number, &bytes[count..])),
        None => None,
    }
}

/// What follows a text at the front.
pub fn after_text<'a>(bytes: &'a [u8], text: &[u8]) -> Option<&'a [u8]>
    ensures value { option_map (λ x. x.now) result ≡ first.after_text text.now bytes.now }
    ensures shorter { IfSome result (λ rest. length rest.now + length text.now ≤ length bytes.now) }
{
    if bytes.starts_with(text) {
        Some(&bytes[text.len()..])
    } else {
        None
    }
}

/// The integer at the front, from the one limit below 0 to the other above, and what follows it.
#[tactic(auto, unfolding(crate::specs::FirstFields::signed_at))]
pub fn signed_at(bytes: &[u8], low: u128, high: u128) -> Option<(i128, &[u8])>
    requires low { low ≤ 10 ^ 24 }
    requires high { high ≤ 10 ^ 24 }
    ensures value { option_map (λ x. (x.0, x.1.now)) result ≡ first.signed_at low high bytes.now }
    ensures shorter { IfSome result (λ x. length x.1.now ≤ length bytes.now) }
    ensures least { IfSome result (λ x. neg_ℤ (pos low) ≤ℤ x.0) }
    ensures most { IfSome result (λ x. x.0 ≤ℤ pos high) }
{
    match after_text(bytes, b"-") {
        Some(rest) => {
            let (size, rest) = number_at(rest, low)?;
            Some((-(size as i128), rest))
        }
        None => {
            let (size, rest) = number_at(bytes, high)?;
            Some((size as i128, rest))
        }
    }
}

/// The place at the front, and what follows it.
#[tactic(auto, unfolding(crate::specs::FirstFields::place_at))]
pub fn place_at(bytes: &[u8]) -> Option<(Place, &[u8])>
    ensures value { option_map (λ x. (x.0, x.1.now)) result ≡ first.place_at bytes.now }
    ensures range { IfSome result (λ x. IsPlaceInRange x.0) }
    ensures shorter { IfSome result (λ x. length x.1.now ≤ length bytes.now) }
{
    let (j, rest) = number_at(bytes, u128::from(u32::MAX))?;
    let rest = after_text(rest, b":")?;
    let (n1, rest) = signed_at(rest, 1 << 31, (1 << 31) - 1)?;
    let rest = after_text(rest, b":")?;
    let (n2, rest) = signed_at(rest, 1 << 31, (1 << 31) - 1)?;
    let place = Place {
        j: j as u32,
        n1: n1 as i32,
        n2: n2 as i32,
    };
    Some((place, rest))
}
