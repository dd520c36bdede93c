//! The times of a dump, in femtoseconds.
ghost use Rattle.std.specs.Prelude.{◌≡◌, ◌*◌, ◌^◌, ◌<◌, ◌≤◌, true, pos, MatchOption};
ghost use Rattle.std.specs.List.{list_all};
ghost use Rattle.capture_core.specs.Numerals as numerals;

use capture_core::{LAST_TIME, number_within};

/// The time that the digits spell, in femtoseconds, where it is no larger than the last time.
pub fn time_of(digits: &[u8], scale: u128) -> Option<u128>
    requires { list_all numerals.is_digit digits.now ≡ true }
    ensures { MatchOption result (10 ^ 24 < numerals.number digits.now * scale) (λ t. (t ≡ numerals.number digits.now * scale) × (t ≤ 10 ^ 24)) }
{
    if scale == 0 {
        return Some(0);
    }
    let number = number_within(0, digits, LAST_TIME)?;
    let time = number.checked_mul(scale)?;
    if time > LAST_TIME { None } else { Some(time) }
}

/// The same number with a sign.
pub fn signed(time: u128) -> i128
    requires { time ≤ 10 ^ 24 }
    ensures { result ≡ pos time }
{
    time as i128
}
