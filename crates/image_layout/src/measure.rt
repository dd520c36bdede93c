//! The sections that the header's counts give.
ghost use Rattle.std.specs.Prelude.{◌≡◌, ◌≤◌, ◌<◌, ◌^◌, length};
ghost use Rattle.image_layout.specs.Layout.{image_end, padded_to};
ghost use Rattle.image_layout.specs.Keeps.{AreCounts, AreSections};

use crate::sections::Sections;
use crate::words::word_at;

/// The length of a section with its padding.
fn padded(length: usize) -> usize
    requires { length < 2 ^ 32 }
    ensures { result ≡ padded_to length }
{
    (length + 7) / 8 * 8
}

/// The counts and places of the sections, as the header tells them.
pub fn sections_of(bytes: &[u8]) -> Sections
    requires head { 72 ≤ length bytes.now }
    requires counts { AreCounts bytes.now }
    ensures { AreSections result bytes.now }
{
    let slots = word_at(bytes, 12);
    let places = word_at(bytes, 16);
    let times = word_at(bytes, 20);
    let ratios = word_at(bytes, 24);
    let states = word_at(bytes, 28);
    let words = places.div_ceil(64);
    let width = times + 1 + (2 * ratios + 1) + 26;
    let places_at = 72 + padded(slots as usize);
    let times_at = places_at + padded(12 * places as usize);
    let ratios_at = times_at + 8 * times as usize;
    let kinds_at = ratios_at + 8 * ratios as usize;
    let members_at = kinds_at + 16 * states as usize;
    let rows_at = members_at + 8 * (states as usize * words as usize);
    Sections {
        slots,
        places,
        times,
        ratios,
        states,
        words,
        width,
        places_at,
        times_at,
        ratios_at,
        kinds_at,
        members_at,
        rows_at,
    }
}

/// The end of the image, behind the padding of the last section.
pub fn end_of(bytes: &[u8], sections: &Sections) -> usize
    requires counts { AreCounts bytes.now }
    requires laid { AreSections sections.now bytes.now }
    ensures { result ≡ image_end bytes.now }
{
    sections.rows_at + padded(2 * (sections.states as usize * sections.width as usize))
}
