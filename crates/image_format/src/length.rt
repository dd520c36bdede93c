//! The rules of the image's length.
ghost use Rattle.std.specs.Prelude.{◌≤◌, length};
ghost use Rattle.image_layout.specs.HeaderRules.{length_fault};
ghost use Rattle.image_layout.specs.Keeps.{AreCounts, AreSections};
ghost use Rattle.image_format.specs.Tells.{Tells};

use image_layout::measure::end_of;
use image_layout::words::word_at;
use image_layout::{ImageFault, Sections};

/// The length of the bytes, and the header's word for it.
#[tactic(auto, using(image_layout::proofs::Firsts::firsts), unfolding(image_layout::specs::HeaderRules::length_fault))]
pub fn check_length(bytes: &[u8], sections: &Sections) -> Result<(), ImageFault>
    requires head { 72 ≤ length bytes.now }
    requires counts { AreCounts bytes.now }
    requires laid { AreSections sections.now bytes.now }
    ensures { Tells result (length_fault bytes.now) }
{
    let end = end_of(bytes, sections);
    if bytes.len() < end {
        return Err(ImageFault::Short);
    }
    if bytes.len() > end {
        return Err(ImageFault::Extra);
    }
    if word_at(bytes, 8) as usize != end {
        return Err(ImageFault::Range { section: 0, at: 8 });
    }
    Ok(())
}
