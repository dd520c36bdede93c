//! Texts at the end of a file's bytes.
ghost use Rattle.std.specs.Prelude.{◌≡◌, ◌<◌, ◌^◌, ◌++◌, OnOk, decimal};
ghost use Rattle.stimulus_files.specs.Files.{last_digits, level_digit};

use itoa::Buffer;
use wheel_types::Memory;

/// One with as many zeros as a second has decimals in femtoseconds.
pub const SECOND: u128 = 1_000_000_000_000_000;

/// The digit of a level.
pub fn level_digit(level: bool) -> u8
    ensures { result ≡ level_digit level }
{
    if level { b'1' } else { b'0' }
}

/// Puts bytes at the end.
pub fn push(text: &mut Vec<u8>, bytes: &[u8]) -> Result<(), Memory>
    ensures { OnOk result (text.new.items ≡ text.old.items ++ bytes.now) }
{
    text.extend_from_slice(bytes)?;
    Ok(())
}

/// Puts the digits of a number at the end.
pub fn push_number(text: &mut Vec<u8>, number: u128) -> Result<(), Memory>
    ensures { OnOk result (text.new.items ≡ text.old.items ++ decimal number) }
{
    let mut buffer = Buffer::new();
    push(text, buffer.format(number).as_bytes())
}

/// Puts the 15 decimals of so many femtoseconds at the end. A one in front keeps their leading zeros.
pub fn push_decimals(text: &mut Vec<u8>, part: u128) -> Result<(), Memory>
    requires { part < 10 ^ 15 }
    ensures { OnOk result (text.new.items ≡ text.old.items ++ last_digits 15 part) }
{
    let mut buffer = Buffer::new();
    let digits = buffer.format(SECOND + part).as_bytes();
    push(text, &digits[1..])
}
