//! The rules of the cuts.
ghost use Rattle.std.specs.Prelude.{◌<◌};
ghost use Rattle.image_layout.specs.Layout.{time_total, ratio_total};
ghost use Rattle.image_layout.specs.ListRules.{time_cuts_fault, time_cut_fault, ratio_cuts_fault, ratio_cut_fault};
ghost use Rattle.image_layout.specs.Keeps.{AreLaid};
ghost use Rattle.image_format.specs.Tells.{Tells};

use image_layout::fields::{ratio_cut, time_cut};
use image_layout::{ImageFault, Sections};

#[tactic(auto, using(image_layout::proofs::Firsts::firsts))]
fn check_time_cut(bytes: &[u8], sections: &Sections, i: u32) -> Result<(), ImageFault>
    requires laid { AreLaid sections.now bytes.now }
    requires there { i < time_total bytes.now }
    ensures { Tells result (time_cut_fault bytes.now i) }
{
    let cut = time_cut(bytes, sections, i);
    if cut < 1 {
        return Err(ImageFault::Range { section: 3, at: i });
    }
    if i > 0 && time_cut(bytes, sections, i - 1) >= cut {
        return Err(ImageFault::Order { section: 3, at: i });
    }
    Ok(())
}

/// The time cuts are at least 1 and rise.
pub fn check_time_cuts(bytes: &[u8], sections: &Sections) -> Result<(), ImageFault>
    requires { AreLaid sections.now bytes.now }
    ensures { Tells result (time_cuts_fault bytes.now) }
{
    for i in 0..sections.times {
        check_time_cut(bytes, sections, i)?;
    }
    Ok(())
}

#[tactic(auto, using(image_layout::proofs::Firsts::firsts))]
fn check_ratio_cut(bytes: &[u8], sections: &Sections, i: u32) -> Result<(), ImageFault>
    requires laid { AreLaid sections.now bytes.now }
    requires there { i < ratio_total bytes.now }
    ensures { Tells result (ratio_cut_fault bytes.now i) }
{
    let (top, bottom) = ratio_cut(bytes, sections, i);
    if top < 1 || bottom < 1 {
        return Err(ImageFault::Range { section: 4, at: i });
    }
    if i > 0 {
        let (top_before, bottom_before) = ratio_cut(bytes, sections, i - 1);
        if u64::from(top_before) * u64::from(bottom) >= u64::from(top) * u64::from(bottom_before) {
            return Err(ImageFault::Order { section: 4, at: i });
        }
    }
    Ok(())
}

/// The ratio cuts are fractions that rise.
pub fn check_ratio_cuts(bytes: &[u8], sections: &Sections) -> Result<(), ImageFault>
    requires { AreLaid sections.now bytes.now }
    ensures { Tells result (ratio_cuts_fault bytes.now) }
{
    for i in 0..sections.ratios {
        check_ratio_cut(bytes, sections, i)?;
    }
    Ok(())
}
