//! The rules of the phases and kinds.
ghost use Rattle.std.specs.Prelude.{◌≡◌, ◌<◌};
ghost use Rattle.image_layout.specs.Layout.{state_total};
ghost use Rattle.image_layout.specs.Fields.{kind_word_at, crank_total};
ghost use Rattle.image_layout.specs.StateRules.{kinds_fault, kind_fault, is_kind, is_open, is_phase, is_dead, is_at};
ghost use Rattle.image_layout.specs.Keeps.{AreLaid};
ghost use Rattle.image_format.specs.Tells.{Tells};

use crate::header::range;
use image_layout::fields::{kind_word, place};
use image_layout::{ImageFault, Sections};

fn is_open(bytes: &[u8], sections: &Sections, kind: u32, e: u32, f: u32) -> bool
    requires { AreLaid sections.now bytes.now }
    ensures { result ≡ is_open bytes.now kind e f }
{
    kind == 2
        && e < f
        && f < sections.places
        && place(bytes, sections, e).j != place(bytes, sections, f).j
}

fn is_phase(q: u32, phase: u32) -> bool
    ensures { result ≡ is_phase q phase }
{
    phase <= 5 && (q != 1 || phase == 0)
}

fn is_dead(phase: u32, kind: u32, e: u32, f: u32) -> bool
    ensures { result ≡ is_dead phase kind e f }
{
    phase == 0 && kind == 0 && e == 0 && f == 0
}

fn is_at(cranks: u32, kind: u32, e: u32, f: u32) -> bool
    ensures { result ≡ is_at cranks kind e f }
{
    kind == 1 && e < cranks && f == 0
}

fn is_kind(bytes: &[u8], sections: &Sections, cranks: u32, q: u32) -> bool
    requires laid { AreLaid sections.now bytes.now }
    requires cranks { cranks ≡ crank_total bytes.now }
    requires there { q < state_total bytes.now }
    ensures { result ≡ is_kind bytes.now q (kind_word_at bytes.now q 0) (kind_word_at bytes.now q 1) (kind_word_at bytes.now q 2) (kind_word_at bytes.now q 3) }
{
    let phase = kind_word(bytes, sections, q, 0);
    let kind = kind_word(bytes, sections, q, 1);
    let e = kind_word(bytes, sections, q, 2);
    let f = kind_word(bytes, sections, q, 3);
    if q == 0 {
        is_dead(phase, kind, e, f)
    } else {
        is_phase(q, phase) && (is_at(cranks, kind, e, f) || is_open(bytes, sections, kind, e, f))
    }
}

fn check_kind(bytes: &[u8], sections: &Sections, cranks: u32, q: u32) -> Result<(), ImageFault>
    requires laid { AreLaid sections.now bytes.now }
    requires cranks { cranks ≡ crank_total bytes.now }
    requires there { q < state_total bytes.now }
    ensures { Tells result (kind_fault bytes.now q) }
{
    range(5, q, is_kind(bytes, sections, cranks, q))
}

/// Each state has a phase and a kind in range.
pub fn check_kinds(bytes: &[u8], sections: &Sections, cranks: u32) -> Result<(), ImageFault>
    requires laid { AreLaid sections.now bytes.now }
    requires cranks { cranks ≡ crank_total bytes.now }
    ensures { Tells result (kinds_fault bytes.now) }
{
    for i in 0..sections.states {
        check_kind(bytes, sections, cranks, i)?;
    }
    Ok(())
}
