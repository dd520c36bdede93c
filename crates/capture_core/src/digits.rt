//! Digits, and the numbers that they spell, as times are written in captures of any form.
ghost use Rattle.std.specs.Prelude.{◌≡◌, ◌≤◌, ◌<◌, ◌^◌, true, length, MatchOption};
ghost use Rattle.std.specs.List.{list_all};
ghost use Rattle.capture_core.specs.Numerals as numerals;

/// The greatest size of a time, in femtoseconds: a billion seconds.
pub const LAST_TIME: u128 = 1_000_000_000_000_000_000_000_000;

/// A byte from `0` to `9`.
pub fn is_digit(byte: u8) -> bool
    ensures { result ≡ numerals.is_digit byte }
{
    b'0' <= byte && byte <= b'9'
}

/// No byte is other than a digit.
pub fn all_digits(text: &[u8]) -> bool
    ensures { result ≡ list_all numerals.is_digit text.now }
{
    text.iter().all(|byte| is_digit(*byte))
}

/// So many digits spell a number that 64 bits hold.
const SHORT: usize = 18;

/// The number that few digits spell.
fn short_number(digits: &[u8]) -> u64
    requires digits { list_all numerals.is_digit digits.now ≡ true }
    requires short { length digits.now ≤ 18 }
    ensures { result ≡ numerals.number digits.now }
{
    let mut number = 0;
    'digits: for digit in digits {
        number = number * 10 + u64::from(*digit - b'0');
    }
    number
}

/// The number that few digits spell after those of a first one.
fn short_number_after(first: u64, digits: &[u8]) -> u128
    requires digits { list_all numerals.is_digit digits.now ≡ true }
    requires short { length digits.now ≤ 18 }
    ensures { result ≡ numerals.number_after first digits.now }
{
    let power = 10_u64.pow(digits.len() as u32);
    u128::from(first) * u128::from(power) + u128::from(short_number(digits))
}

/// The number that digits spell after those of a first one, where it is at most `most`. Arithmetic in 64 bits is far quicker, so it does
/// what it can.
#[tactic(auto, using(crate::proofs::Numerals::numbers))]
pub fn number_within(first: u128, digits: &[u8], most: u128) -> Option<u128>
    requires digits { list_all numerals.is_digit digits.now ≡ true }
    requires first { first ≤ most }
    requires most { most ≤ 10 ^ 24 }
    ensures { MatchOption result (most < numerals.number_after first digits.now) (λ n. (n ≡ numerals.number_after first digits.now) × (n ≤ most)) }
{
    if digits.len() <= SHORT && first <= u128::from(u64::MAX) {
        let number = short_number_after(first as u64, digits);
        return if number > most { None } else { Some(number) };
    }
    let mut number = first;
    'digits: for digit in digits {
        number = number * 10 + u128::from(*digit - b'0');
        if number > most {
            return None;
        }
    }
    Some(number)
}
