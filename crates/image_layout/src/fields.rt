//! The entries of the sections, read at their places.
ghost use Rattle.std.specs.Prelude.{◌≡◌, ◌≤◌, ◌<◌, ◌+◌, ◌*◌, length, slice_range};
ghost use Rattle.image_layout.specs.Layout.{place_total, time_total, ratio_total, state_total, set_words, row_width};
ghost use Rattle.image_layout.specs.Fields.{place_at, time_cut_at, ratio_top_at, ratio_bottom_at, kind_word_at, member_at, row_number_at, row_of, entry_at};
ghost use Rattle.image_layout.specs.Keeps.{AreLaid};

use crate::sections::Sections;
use crate::words::{half_at, long_at, signed_at, word_at};
use wheel_types::Place;

/// Place `i`.
#[inline]
pub fn place(bytes: &[u8], sections: &Sections, i: u32) -> Place
    requires laid { AreLaid sections.now bytes.now }
    requires there { i < place_total bytes.now }
    ensures { result ≡ place_at bytes.now i }
{
    let at = sections.places_at + 12 * i as usize;
    Place {
        j: word_at(bytes, at),
        n1: signed_at(bytes, at + 4),
        n2: signed_at(bytes, at + 8),
    }
}

/// Time cut `i`, in femtoseconds.
#[inline]
pub fn time_cut(bytes: &[u8], sections: &Sections, i: u32) -> u64
    requires laid { AreLaid sections.now bytes.now }
    requires there { i < time_total bytes.now }
    ensures { result ≡ time_cut_at bytes.now i }
{
    long_at(bytes, sections.times_at + 8 * i as usize)
}

/// Ratio cut `i`, its top and its bottom.
#[inline]
pub fn ratio_cut(bytes: &[u8], sections: &Sections, i: u32) -> (u32, u32)
    requires laid { AreLaid sections.now bytes.now }
    requires there { i < ratio_total bytes.now }
    ensures top { result.0 ≡ ratio_top_at bytes.now i }
    ensures bottom { result.1 ≡ ratio_bottom_at bytes.now i }
{
    let at = sections.ratios_at + 8 * i as usize;
    (word_at(bytes, at), word_at(bytes, at + 4))
}

/// Word 0 to 3 of a state's kind.
#[inline]
pub fn kind_word(bytes: &[u8], sections: &Sections, q: u32, word: u32) -> u32
    requires laid { AreLaid sections.now bytes.now }
    requires there { q < state_total bytes.now }
    requires word { word < 4 }
    ensures { result ≡ kind_word_at bytes.now q word }
{
    word_at(
        bytes,
        sections.kinds_at + 16 * q as usize + 4 * word as usize,
    )
}

/// A word of a state's set.
#[inline]
pub fn member(bytes: &[u8], sections: &Sections, q: u32, word: u32) -> u64
    requires laid { AreLaid sections.now bytes.now }
    requires there { q < state_total bytes.now }
    requires word { word < set_words bytes.now }
    ensures { result ≡ member_at bytes.now q word }
{
    let number = q as usize * sections.words as usize + word as usize;
    long_at(bytes, sections.members_at + 8 * number)
}

/// A number of the rows, state after state.
#[inline]
pub fn row_number(bytes: &[u8], sections: &Sections, e: u32) -> u32
    requires laid { AreLaid sections.now bytes.now }
    requires there { e < state_total bytes.now * row_width bytes.now }
    ensures { result ≡ row_number_at bytes.now e }
{
    u32::from(half_at(bytes, sections.rows_at + 2 * e as usize))
}

/// An entry of a state's row.
#[inline]
pub fn entry(bytes: &[u8], sections: &Sections, q: u32, column: u32) -> u32
    requires laid { AreLaid sections.now bytes.now }
    requires there { q < state_total bytes.now }
    requires column { column < row_width bytes.now }
    ensures { result ≡ entry_at bytes.now q column }
{
    let number = q as usize * sections.width as usize + column as usize;
    u32::from(half_at(bytes, sections.rows_at + 2 * number))
}

#[inline]
fn part(bytes: &[u8], at: usize, size: usize) -> &[u8]
    requires { at + size ≤ length bytes.now }
    ensures { result.now ≡ slice_range bytes.now at (at + size) }
{
    &bytes[at..at + size]
}

/// The bytes of a state's row.
#[inline]
pub fn row<'a>(bytes: &'a [u8], sections: &Sections, q: u32) -> &'a [u8]
    requires laid { AreLaid sections.now bytes.now }
    requires there { q < state_total bytes.now }
    ensures { result.now ≡ row_of bytes.now q }
{
    let width = sections.width as usize;
    part(
        bytes,
        sections.rows_at + 2 * (q as usize * width),
        2 * width,
    )
}
