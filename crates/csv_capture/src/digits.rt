//! Digits, and the numbers that they spell.
ghost use Rattle.std.specs.Prelude.{◌≡◌, ◌≤◌, ◌<◌, ◌-◌, ◌*◌, ◌^◌, ◌++◌, true, length, take, drop, MatchOption};
ghost use Rattle.std.specs.List.{list_all};
ghost use Rattle.capture_core.specs.Numerals as numerals;
ghost use Rattle.csv_capture.specs.Times as times;
ghost use Rattle.csv_capture.specs.Digits as parts;

use capture_core::{LAST_TIME, all_digits, number_within};

/// How many zeros the greatest size of a time ends in.
const LAST_ZEROS: usize = 24;

/// There are one digit or more, and no other byte.
pub fn are_digits(text: &[u8]) -> bool
    ensures { result ≡ times.are_digits text.now }
{
    !text.is_empty() && all_digits(text)
}

/// The bytes before and after a point are digits, and there is one.
pub fn is_number(whole: &[u8], fraction: &[u8]) -> bool
    ensures { result ≡ times.are_digits (whole.now ++ fraction.now) }
{
    if whole.is_empty() {
        return are_digits(fraction);
    }
    all_digits(whole) && all_digits(fraction)
}

fn all_zeros(text: &[u8]) -> bool
    ensures { result ≡ list_all parts.is_zero text.now }
{
    text.iter().all(|byte| *byte == b'0')
}

/// So many digits from the front, or all where there are fewer.
fn front(digits: &[u8], count: usize) -> &[u8]
    ensures { result.now ≡ take count digits.now }
{
    &digits[..count.min(digits.len())]
}

/// The digits after so many.
fn back(digits: &[u8], count: usize) -> &[u8]
    ensures { result.now ≡ drop count digits.now }
{
    &digits[count.min(digits.len())..]
}

/// The number with so many zeros after it, where it is at most the last time.
fn with_zeros(number: u128, zeros: usize) -> Option<u128>
    ensures { MatchOption result (10 ^ 24 < number * 10 ^ zeros) (λ n. (n ≡ number * 10 ^ zeros) × (n ≤ 10 ^ 24)) }
{
    if number == 0 {
        return Some(0);
    }
    if zeros > LAST_ZEROS {
        return None;
    }
    let size = number.checked_mul(10_u128.pow(zeros as u32))?;
    if size > LAST_TIME { None } else { Some(size) }
}

/// The number of the first so many digits, with zeros for those that are missing, where it is at most the last time.
pub fn number_to(whole: &[u8], fraction: &[u8], count: usize) -> Option<u128>
    requires whole { list_all numerals.is_digit whole.now ≡ true }
    requires fraction { list_all numerals.is_digit fraction.now ≡ true }
    ensures { MatchOption result (10 ^ 24 < parts.number_to (whole.now ++ fraction.now) count) (λ n. (n ≡ parts.number_to (whole.now ++ fraction.now) count) × (n ≤ 10 ^ 24)) }
{
    let after = count.saturating_sub(whole.len());
    let zeros = after.saturating_sub(fraction.len());
    let seconds = number_within(0, front(whole, count), LAST_TIME)?;
    let number = number_within(seconds, front(fraction, after), LAST_TIME)?;
    with_zeros(number, zeros)
}

/// The digits after the first so many are zeros.
pub fn is_whole_at(whole: &[u8], fraction: &[u8], count: usize) -> bool
    ensures { result ≡ list_all parts.is_zero (drop count (whole.now ++ fraction.now)) }
{
    all_zeros(back(whole, count)) && all_zeros(back(fraction, count.saturating_sub(whole.len())))
}
