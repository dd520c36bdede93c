//! The rules of the slots, and the kept edges of the crank.
ghost use Rattle.std.specs.Prelude.{◌≡◌, ◌<◌, IfOk};
ghost use Rattle.image_layout.specs.Layout.{slot_total};
ghost use Rattle.image_layout.specs.Fields.{crank_total};
ghost use Rattle.image_layout.specs.Faults.{first_from};
ghost use Rattle.image_layout.specs.ListRules.{slots_fault, slot_fault};
ghost use Rattle.image_layout.specs.Keeps.{AreLaid};
ghost use Rattle.image_format.specs.Tells.{Tells};

use crate::header::range;
use crate::padding::is_padding;
use image_layout::edges::edges;
use image_layout::{ImageFault, Sections};
use wheel_types::Channel;

fn check_slot(bytes: &[u8], sections: &Sections, k: u32) -> Result<(), ImageFault>
    requires laid { AreLaid sections.now bytes.now }
    requires there { k < slot_total bytes.now }
    ensures { Tells result (slot_fault bytes.now k) }
{
    range(1, k, bytes[72 + k as usize] <= 7)
}

fn check_each_slot(bytes: &[u8], sections: &Sections) -> Result<(), ImageFault>
    requires { AreLaid sections.now bytes.now }
    ensures { Tells result (first_from 0 (slot_total bytes.now) (slot_fault bytes.now)) }
{
    for i in 0..sections.slots {
        check_slot(bytes, sections, i)?;
    }
    Ok(())
}

/// The slots are in range, and the crank has a kept edge. Answers the number of its kept edges.
#[tactic(auto, using(image_layout::proofs::Firsts::firsts), unfolding(image_layout::specs::ListRules::slots_fault))]
pub fn check_slots(bytes: &[u8], sections: &Sections) -> Result<u32, ImageFault>
    requires { AreLaid sections.now bytes.now }
    ensures told { Tells result (slots_fault bytes.now) }
    ensures cranks { IfOk result (λ j. j ≡ crank_total bytes.now) }
{
    check_each_slot(bytes, sections)?;
    let cranks = edges(bytes, sections, Channel::Crank);
    range(1, sections.slots, cranks >= 1)?;
    range(
        1,
        sections.slots,
        is_padding(bytes, 72 + sections.slots as usize, sections.places_at),
    )?;
    Ok(cranks)
}
