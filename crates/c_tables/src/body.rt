//! The body of an array: entries with commas between them.
ghost use Rattle.std.specs.Prelude.{◌≡◌, ◌≢◌, ◌≤◌, true, [], length, OnOk, IfOk, IfErr};
ghost use Rattle.std.specs.List.{list_all};
ghost use Rattle.c_tables.specs.Kept.{kept, kept_entries};
ghost use Rattle.c_tables.specs.Spans.{left};
ghost use Rattle.c_tables.specs.Tables as tables;
ghost use Rattle.c_tables.specs.Tokens as words;

use crate::TableFault;
use crate::array::is_number;
use crate::tokens::{next, text_of};
use std::alloc::Global;

/// What may stand next in a body.
#[derive(Clone, Copy, Debug)]
pub enum Wanted {
    /// An entry, before which there is none.
    FirstEntry,
    /// A comma or the end, behind an entry.
    CommaOrEnd,
    /// An entry or the end, behind a comma.
    EntryOrEnd,
}

/// What a token is in a body.
#[derive(Clone, Copy, Debug)]
pub enum Part {
    Entry,
    Comma,
    End,
    /// It may not stand where it does.
    Misfit,
}

impl Wanted {
    fn takes_entry(self) -> bool
        ensures { result ≡ tables.takes_entry self }
    {
        match self {
            Wanted::FirstEntry | Wanted::EntryOrEnd => true,
            Wanted::CommaOrEnd => false,
        }
    }

    fn takes_comma(self) -> bool
        ensures { result ≡ tables.takes_comma self }
    {
        match self {
            Wanted::CommaOrEnd => true,
            Wanted::FirstEntry | Wanted::EntryOrEnd => false,
        }
    }

    fn takes_end(self) -> bool
        ensures { result ≡ tables.takes_end self }
    {
        match self {
            Wanted::CommaOrEnd | Wanted::EntryOrEnd => true,
            Wanted::FirstEntry => false,
        }
    }

    /// What a token of these bytes is here.
    fn part(self, text: &[u8]) -> Part
        ensures { result ≡ tables.part_of self text.now }
    {
        if self.takes_entry() && is_number(text) {
            return Part::Entry;
        }
        if self.takes_comma() && text == b",".as_slice() {
            return Part::Comma;
        }
        if self.takes_end() && text == b"}".as_slice() {
            return Part::End;
        }
        Part::Misfit
    }
}

/// The number that digits spell, or 8 where it is past 7.
fn slot_value(digits: &[u8]) -> u8
    requires { list_all words.is_digit digits.now ≡ true }
    ensures { result ≡ kept (tables.number digits.now) }
{
    let mut value = 0;
    'digits: for digit in digits {
        value = value * 10 + (*digit - b'0');
        if value > 7 {
            return 8;
        }
    }
    value
}

/// Whether the tokens from here on, which follow a `}`, begin with a `;`.
fn end(source: &[u8], from: usize) -> Result<(), TableFault>
    requires { from ≤ length source.now }
    ensures ok { OnOk result (tables.ended (length source.now) (left source.now from) ≡ Ok []) }
    ensures fault { IfErr result (λ f. tables.ended (length source.now) (left source.now from) ≡ Err f) }
{
    match next(source, from) {
        Some(token) => {
            if text_of(source, token) == b";".as_slice() {
                Ok(())
            } else {
                Err(TableFault::BadText {
                    at: token.at as u64,
                })
            }
        }
        None => Err(TableFault::BadText {
            at: source.len() as u64,
        }),
    }
}

/// The values of the entries of the body that begins here, with 8 for each that is past 7.
///
/// # Errors
/// `BadText`, or `Memory`.
pub fn entries(alloc: Global, source: &[u8], from: usize) -> Result<Vec<u8>, TableFault>
    requires { from ≤ length source.now }
    ensures values { IfOk result (λ values. kept_entries (length source.now) Wanted.FirstEntry (left source.now from) ≡ Ok values.items) }
    ensures fault { IfErr result (λ f. f ≢ TableFault.Memory → kept_entries (length source.now) Wanted.FirstEntry (left source.now from) ≡ Err f) }
{
    let mut values = Vec::new(alloc);
    let mut at = from;
    let mut wanted = Wanted::FirstEntry;
    'tokens: while let Some(token) = next(source, at) {
        let text = text_of(source, token);
        at = token.end;
        match wanted.part(text) {
            Part::Entry => {
                if values.push(slot_value(text)).is_err() {
                    return Err(TableFault::Memory);
                }
                wanted = Wanted::CommaOrEnd;
            }
            Part::Comma => wanted = Wanted::EntryOrEnd,
            Part::End => {
                return match end(source, at) {
                    Ok(()) => Ok(values),
                    Err(fault) => Err(fault),
                };
            }
            Part::Misfit => return Err(TableFault::BadText {
                at: token.at as u64,
            }),
        }
    }
    Err(TableFault::BadText {
        at: source.len() as u64,
    })
}
