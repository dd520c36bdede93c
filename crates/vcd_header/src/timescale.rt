//! The timescale of a dump.
ghost use Rattle.std.specs.Prelude.{◌≡◌, ◌≤◌, ◌^◌, IfOk, IfSome};
ghost use Rattle.std.specs.List.{flat_map};
ghost use Rattle.vcd_header.specs.Timescales as scales;

use std::alloc::{AllocError, Global};
use wheel_types::List;

/// A unit in femtoseconds.
fn unit_of(text: &[u8]) -> Option<u128>
    ensures unit { result ≡ scales.unit_of text.now }
    ensures in_range { IfSome result (λ u. u ≤ 10 ^ 15) }
{
    if text == b"s".as_slice() {
        Some(1_000_000_000_000_000)
    } else if text == b"ms".as_slice() {
        Some(1_000_000_000_000)
    } else if text == b"us".as_slice() {
        Some(1_000_000_000)
    } else if text == b"ns".as_slice() {
        Some(1_000_000)
    } else if text == b"ps".as_slice() {
        Some(1_000)
    } else if text == b"fs".as_slice() {
        Some(1)
    } else {
        None
    }
}

/// 1, 10 or 100 of a unit, in femtoseconds.
pub fn scale_of(text: &[u8]) -> Option<u128>
    ensures { result ≡ scales.scale_of text.now }
{
    if text.starts_with(b"100".as_slice()) {
        let unit = unit_of(&text[3..])?;
        Some(100 * unit)
    } else if text.starts_with(b"10".as_slice()) {
        let unit = unit_of(&text[2..])?;
        Some(10 * unit)
    } else if text.starts_with(b"1".as_slice()) {
        unit_of(&text[1..])
    } else {
        None
    }
}

/// The words of a timescale, joined.
pub fn joined(alloc: Global, words: &[List<u8>]) -> Result<Vec<u8>, AllocError>
    ensures { IfOk result (λ v. v.items ≡ flat_map (λ w. w) words.now) }
{
    let mut text = Vec::new(alloc);
    'words: for word in words {
        text.extend_from_slice(word.as_slice())?;
    }
    Ok(text)
}
