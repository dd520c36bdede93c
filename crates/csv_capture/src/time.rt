//! Times: decimal numbers of seconds, read as whole numbers of femtoseconds.
ghost use Rattle.std.specs.Prelude.{◌≡◌, ◌≤◌, ◌<◌, ◌^◌, ◌++◌, true, length, IfOk};
ghost use Rattle.std.specs.List.{list_all, position_or_len, before_first, after_first};
ghost use Rattle.capture_core.specs.Numerals as numerals;
ghost use Rattle.csv_capture.specs.Times as times;
ghost use Rattle.csv_capture.specs.Digits as parts;

use crate::digits::{are_digits, is_number, is_whole_at, number_to};
use capture_core::{LAST_TIME, number_within};

/// Why a text gives no time.
#[derive(Clone, Copy, Debug, PartialEq, Eq)]
pub enum TimeFault {
    /// It is no decimal number.
    Bad,
    /// It is more than a billion seconds in size.
    TooLarge,
    /// It is not a whole number of femtoseconds.
    TooFine,
}

/// The decimal places that femtoseconds have.
const PLACES: usize = 15;

/// The greatest size of an exponent.
const LAST_EXPONENT: u128 = 9_999;

/// The text begins with a minus sign.
fn is_negative(text: &[u8]) -> bool
    ensures { result ≡ times.is_negative text.now }
{
    match text {
        [first, ..] => *first == b'-',
        [] => false,
    }
}

/// The text after its sign, if it has one.
fn unsigned(text: &[u8]) -> &[u8]
    ensures { result.now ≡ times.unsigned text.now }
{
    match text {
        [b'+' | b'-', rest @ ..] => rest,
        _ => text,
    }
}

/// How many bytes stand before the first point.
fn point(text: &[u8]) -> usize
    ensures { result ≡ position_or_len times.is_point text.now }
{
    'bytes: for at in 0..text.len() {
        if text[at] == b'.' {
            return at;
        }
    }
    text.len()
}

/// The letter before an exponent.
fn is_mark(byte: u8) -> bool
    ensures { result ≡ times.is_mark byte }
{
    byte == b'e' || byte == b'E'
}

/// How many bytes stand before the first letter of an exponent.
fn mark(text: &[u8]) -> usize
    ensures { result ≡ position_or_len times.is_mark text.now }
{
    'bytes: for at in 0..text.len() {
        if is_mark(text[at]) {
            return at;
        }
    }
    text.len()
}

/// The bytes before the first point, and those after it.
fn around_point(text: &[u8]) -> (&[u8], &[u8])
    ensures whole { result.0.now ≡ before_first times.is_point text.now }
    ensures fraction { result.1.now ≡ after_first times.is_point text.now }
{
    let at = point(text);
    let fraction = if at < text.len() {
        &text[at + 1..]
    } else {
        &[]
    };
    (&text[..at], fraction)
}

/// The exponent that a text spells.
fn exponent_of(text: &[u8]) -> Option<i32>
    ensures { result ≡ times.exponent_of text.now }
{
    let digits = unsigned(text);
    if !are_digits(digits) {
        return None;
    }
    let size = number_within(0, digits, LAST_EXPONENT)? as i32;
    if is_negative(text) {
        Some(-size)
    } else {
        Some(size)
    }
}

/// The exponent in a text whose first letter of an exponent is known to stand here, if it has one.
fn exponent_from(text: &[u8], at: usize) -> Option<i32>
    requires { at ≡ position_or_len times.is_mark text.now }
    ensures { result ≡ times.exponent_in text.now }
{
    if at < text.len() {
        exponent_of(&text[at + 1..])
    } else {
        Some(0)
    }
}

/// How many digits stand before the point, once it goes to femtoseconds and as far as the exponent says.
fn moved_point(whole: usize, exponent: i32) -> usize
    requires { whole < 2 ^ 63 }
    ensures { result ≡ parts.moved_point whole exponent }
{
    let places = exponent.unsigned_abs() as usize;
    if exponent < 0 {
        (whole + PLACES).saturating_sub(places)
    } else {
        whole + PLACES + places
    }
}

/// The femtoseconds of digits before and after a point, times ten to the power of the exponent.
fn femtoseconds(whole: &[u8], fraction: &[u8], exponent: i32) -> Result<u128, TimeFault>
    requires whole { list_all numerals.is_digit whole.now ≡ true }
    requires fraction { list_all numerals.is_digit fraction.now ≡ true }
    ensures value { result ≡ times.femtoseconds (times.scaled (parts.decimal whole.now fraction.now) exponent) }
    ensures bound { IfOk result (λ n. n ≤ 10 ^ 24) }
{
    let count = moved_point(whole.len(), exponent);
    let Some(size) = number_to(whole, fraction, count) else {
        return Err(TimeFault::TooLarge);
    };
    if is_whole_at(whole, fraction, count) {
        return Ok(size);
    }
    if size < LAST_TIME {
        Err(TimeFault::TooFine)
    } else {
        Err(TimeFault::TooLarge)
    }
}

/// The femtoseconds that a text without a sign spells.
fn size_of(text: &[u8]) -> Result<u128, TimeFault>
    ensures value { result ≡ times.femtoseconds_if (times.seconds_of text.now) }
    ensures bound { IfOk result (λ n. n ≤ 10 ^ 24) }
{
    let at = mark(text);
    let (whole, fraction) = around_point(&text[..at]);
    if !is_number(whole, fraction) {
        return Err(TimeFault::Bad);
    }
    match exponent_from(text, at) {
        Some(exponent) => femtoseconds(whole, fraction, exponent),
        None => Err(TimeFault::Bad),
    }
}

/// The number with a sign.
fn signed(negative: bool, size: u128) -> i128
    requires { size ≤ 10 ^ 24 }
    ensures { result ≡ times.signed negative size }
{
    if negative {
        -(size as i128)
    } else {
        size as i128
    }
}

/// The time in femtoseconds that a text spells in seconds.
pub fn time_of(text: &[u8]) -> Result<i128, TimeFault>
    ensures { result ≡ times.time_of text.now }
{
    match size_of(unsigned(text)) {
        Ok(size) => Ok(signed(is_negative(text), size)),
        Err(fault) => Err(fault),
    }
}
