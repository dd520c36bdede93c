//! Greatest common divisors.
ghost use Rattle.std.specs.Prelude.{◌≤◌};
ghost use Rattle.std.specs.Int.{IsGcd};

/// The greatest common divisor of two numbers.
pub fn common_divisor(first: u64, second: u64) -> u64
    ensures { IsGcd first second result }
{
    let mut high = first;
    let mut low = second;
    while low != 0 {
        let rest = high % low;
        high = low;
        low = rest;
    }
    high
}
