//! Where a reader is among the changes, and what a token that gives no level leads to.
ghost use Rattle.vcd_reader.specs.Changes as change;
ghost use Rattle.vcd_reader.specs.Standing.{BringsOf};

use capture_core::VcdFault;
use vcd_header::{all_values, is_idle, level_of};

/// Where a reader is within the changes.
#[derive(Clone, Copy, Debug, PartialEq, Eq)]
pub enum Phase {
    Between,
    Wanting(Option<bool>),
    Skipping,
    Refused(VcdFault),
}

/// The values of a vector change.
fn vector_token(values: &[u8], at: u64) -> Phase
    ensures { BringsOf result (λ b. change.vector_token b values.now at) }
{
    match values {
        [.., last] if all_values(values) => Phase::Wanting(level_of(*last)),
        _ => Phase::Refused(VcdFault::BadToken { at }),
    }
}

/// The number of a real change.
fn real_token(bytes: &[u8], at: u64) -> Phase
    ensures { BringsOf result (λ b. change.real_token b bytes.now at) }
{
    if bytes.is_empty() {
        Phase::Refused(VcdFault::BadToken { at })
    } else {
        Phase::Wanting(None)
    }
}

/// A keyword among the changes.
fn keyword(text: &[u8]) -> Phase
    ensures { BringsOf result (λ b. change.keyword_token b text.now) }
{
    if is_idle(text) {
        Phase::Between
    } else {
        Phase::Skipping
    }
}

/// A token between two changes that is neither a time nor a scalar change.
pub fn other_token(first: u8, rest: &[u8], text: &[u8], at: u64) -> Phase
    ensures { BringsOf result (λ b. change.other_token b first rest.now text.now at) }
{
    match first {
        b'b' | b'B' => vector_token(rest, at),
        b'r' | b'R' => real_token(rest, at),
        b's' | b'S' => Phase::Wanting(None),
        b'$' => keyword(text),
        _ => Phase::Refused(VcdFault::BadToken { at }),
    }
}
