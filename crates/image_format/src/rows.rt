//! The rules of the rows.
ghost use Rattle.std.specs.Prelude.{◌≡◌, ◌≤◌, ◌<◌, ◌+◌, ◌*◌, ◌↔◌, ℕ, Some, None, IsTrue, IfOk, IfErr};
ghost use Rattle.image_layout.specs.Layout.{state_total, row_width};
ghost use Rattle.image_layout.specs.Fields.{row_number_at};
ghost use Rattle.image_layout.specs.Letters.{leads_to, letter_of};
ghost use Rattle.image_layout.specs.Faults.{first_from};
ghost use Rattle.image_layout.specs.StateRules.{rows_fault, entry_fault, is_entry};
ghost use Rattle.image_layout.specs.Keeps.{AreLaid};
ghost use Rattle.image_format.specs.Tells.{Tells};

use crate::header::range;
use crate::padding::is_padding;
use image_layout::fields::{kind_word, row_number};
use image_layout::measure::end_of;
use image_layout::words::long_at;
use image_layout::{ImageFault, Sections};

fn leads_to(times: u32, ratios: u32, column: u32, from: u32, to: u32) -> bool
    requires times { times ≤ 8192 }
    requires ratios { ratios ≤ 8192 }
    ensures { result ≡ leads_to (letter_of times ratios column) from to }
{
    let shapes = times + 1 + (2 * ratios + 1);
    if column < times + 1 {
        from == 1 && to == 3 || from == 2 && to == 4
    } else if column < shapes {
        from == 4 && to == 5
    } else if (column - shapes + 1) % 3 == 0 {
        from == to && from < 3
    } else {
        from == 0 && to == 1 || from == 3 && to == 2 || from == 5 && to == 2
    }
}

fn is_entry(bytes: &[u8], sections: &Sections, q: u32, column: u32, to: u32) -> bool
    requires laid { AreLaid sections.now bytes.now }
    requires there { q < state_total bytes.now }
    ensures { result ≡ is_entry bytes.now q column to }
{
    to == 0
        || q > 0
            && to < sections.states
            && leads_to(
                sections.times,
                sections.ratios,
                column,
                kind_word(bytes, sections, q, 0),
                kind_word(bytes, sections, to, 0),
            )
}

fn check_entry(bytes: &[u8], sections: &Sections, q: u32, column: u32) -> Result<(), ImageFault>
    requires laid { AreLaid sections.now bytes.now }
    requires there { q < state_total bytes.now }
    requires column { column < row_width bytes.now }
    ensures { Tells result (entry_fault bytes.now (q * row_width bytes.now + column)) }
{
    let number = q * sections.width + column;
    range(
        7,
        number,
        is_entry(
            bytes,
            sections,
            q,
            column,
            row_number(bytes, sections, number),
        ),
    )
}

/// Whether four entries from one on are 0. They are eight bytes.
fn are_zero(bytes: &[u8], sections: &Sections, first: u32) -> bool
    requires laid { AreLaid sections.now bytes.now }
    requires there { first + 4 ≤ state_total bytes.now * row_width bytes.now }
    ensures { IsTrue result ↔ ((k : ℕ) → k < 4 → row_number_at bytes.now (first + k) ≡ 0) }
{
    long_at(bytes, sections.rows_at + 2 * first as usize) == 0
}

/// Checks the entry of a state in a column, or four of its entries at once from there on where all of them are 0, as most entries are;
/// and tells how many.
fn check_some(bytes: &[u8], sections: &Sections, q: u32, column: u32) -> Result<u32, ImageFault>
    requires laid { AreLaid sections.now bytes.now }
    requires there { q < state_total bytes.now }
    requires column { column < row_width bytes.now }
    ensures some { IfOk result (λ n. 1 ≤ n) }
    ensures within { IfOk result (λ n. column + n ≤ row_width bytes.now) }
    ensures kept { IfOk result (λ n. (k : ℕ) → k < n → entry_fault bytes.now (q * row_width bytes.now + column + k) ≡ None) }
    ensures fault { IfErr result (λ fault. entry_fault bytes.now (q * row_width bytes.now + column) ≡ Some fault) }
{
    if sections.width - column >= 4 && are_zero(bytes, sections, q * sections.width + column) {
        return Ok(4);
    }
    check_entry(bytes, sections, q, column)?;
    Ok(1)
}

fn check_each_entry(bytes: &[u8], sections: &Sections) -> Result<(), ImageFault>
    requires laid { AreLaid sections.now bytes.now }
    ensures { Tells result (first_from 0 (state_total bytes.now * row_width bytes.now) (entry_fault bytes.now)) }
{
    let mut q = 0;
    let mut column = 0;
    while q < sections.states {
        let checked = check_some(bytes, sections, q, column)?;
        column += checked;
        if column == sections.width {
            column = 0;
            q += 1;
        }
    }
    Ok(())
}

/// Each entry is a state of the phase that its column leads to, and zeros follow the rows.
#[tactic(auto, using(image_layout::proofs::Firsts::firsts), unfolding(image_layout::specs::StateRules::rows_fault))]
pub fn check_rows(bytes: &[u8], sections: &Sections) -> Result<(), ImageFault>
    requires { AreLaid sections.now bytes.now }
    ensures { Tells result (rows_fault bytes.now) }
{
    check_each_entry(bytes, sections)?;
    let total = sections.states * sections.width;
    let end = sections.rows_at + 2 * total as usize;
    range(7, total, is_padding(bytes, end, end_of(bytes, sections)))
}
