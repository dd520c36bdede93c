//! The rules of the member sets.
ghost use Rattle.std.specs.Prelude.{◌≡◌, ◌≤◌, ◌<◌, ◌^◌, nat_lt};
ghost use Rattle.image_layout.specs.Layout.{state_total};
ghost use Rattle.image_layout.specs.StateRules.{members_fault, set_fault, is_set};
ghost use Rattle.image_layout.specs.Keeps.{AreLaid};
ghost use Rattle.image_format.specs.Tells.{Tells};

use crate::header::range;
use crate::padding::is_padding;
use image_layout::fields::member;
use image_layout::{ImageFault, Sections};

fn is_short(last: u64, bits: u32) -> bool
    requires { bits ≤ 64 }
    ensures { result ≡ nat_lt last (2 ^ bits) }
{
    bits == 64 || last >> bits == 0
}

fn is_set(bytes: &[u8], sections: &Sections, q: u32) -> bool
    requires laid { AreLaid sections.now bytes.now }
    requires there { q < state_total bytes.now }
    ensures { result ≡ is_set bytes.now q }
{
    let last = member(bytes, sections, q, sections.words - 1);
    let bits = sections.places - 64 * (sections.words - 1);
    let start = sections.members_at;
    is_short(last, bits) && (q > 0 || is_padding(bytes, start, start + 8 * sections.words as usize))
}

fn check_set(bytes: &[u8], sections: &Sections, q: u32) -> Result<(), ImageFault>
    requires laid { AreLaid sections.now bytes.now }
    requires there { q < state_total bytes.now }
    ensures { Tells result (set_fault bytes.now q) }
{
    range(6, q, is_set(bytes, sections, q))
}

/// No state has a member that is no place, and state 0 has none.
pub fn check_members(bytes: &[u8], sections: &Sections) -> Result<(), ImageFault>
    requires { AreLaid sections.now bytes.now }
    ensures { Tells result (members_fault bytes.now) }
{
    for i in 0..sections.states {
        check_set(bytes, sections, i)?;
    }
    Ok(())
}
