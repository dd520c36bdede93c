//! Numbers in little endian, at a place.
ghost use Rattle.std.specs.Prelude.{◌≡◌, ◌≤◌, ◌+◌, length};
ghost use Rattle.std.specs.Int.{cast_signed, w32};
ghost use Rattle.image_layout.specs.Layout.{number_at};

use byteorder::{ByteOrder, LittleEndian};

/// The number of two bytes from a place on.
#[inline]
#[tactic(auto, unfolding(crate::specs::Layout::number_at))]
pub fn half_at(bytes: &[u8], at: usize) -> u16
    requires { at + 2 ≤ length bytes.now }
    ensures { result ≡ number_at 2 bytes.now at }
{
    LittleEndian::read_u16(&bytes[at..])
}

/// The number of four bytes from a place on.
#[inline]
#[tactic(auto, unfolding(crate::specs::Layout::number_at))]
pub fn word_at(bytes: &[u8], at: usize) -> u32
    requires { at + 4 ≤ length bytes.now }
    ensures { result ≡ number_at 4 bytes.now at }
{
    LittleEndian::read_u32(&bytes[at..])
}

/// The signed number of four bytes from a place on, in two's complement.
#[inline]
#[tactic(auto, unfolding(crate::specs::Layout::number_at))]
pub fn signed_at(bytes: &[u8], at: usize) -> i32
    requires { at + 4 ≤ length bytes.now }
    ensures { result ≡ cast_signed w32 (number_at 4 bytes.now at) }
{
    LittleEndian::read_i32(&bytes[at..])
}

/// The number of eight bytes from a place on.
#[inline]
#[tactic(auto, unfolding(crate::specs::Layout::number_at))]
pub fn long_at(bytes: &[u8], at: usize) -> u64
    requires { at + 8 ≤ length bytes.now }
    ensures { result ≡ number_at 8 bytes.now at }
{
    LittleEndian::read_u64(&bytes[at..])
}
