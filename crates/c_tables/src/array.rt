//! Where the array of a name stands in a C source.
ghost use Rattle.std.specs.Prelude.{◌≡◌, ◌<◌, ◌≤◌, ◌∷◌, IfSome, IfOk, length, option_map};
ghost use Rattle.std.specs.List.{list_all};
ghost use Rattle.std.specs.Result.{result_map_both};
ghost use Rattle.c_tables.specs.Arrays as arrays;
ghost use Rattle.c_tables.specs.Spans.{left, token_at};
ghost use Rattle.c_tables.specs.Tokens as words;

use crate::TableFault;
use crate::tokens::{Span, is_digit, next, text_of};

/// Whether a token has nothing but digits.
pub fn is_number(text: &[u8]) -> bool
    ensures { result ≡ list_all words.is_digit text.now }
{
    text.iter().all(|byte| is_digit(*byte))
}

/// The place after the first token from here on, if it has these bytes.
fn after(source: &[u8], from: usize, text: &[u8]) -> Option<usize>
    requires { from ≤ length source.now }
    ensures within { IfSome result (λ at. at ≤ length source.now) }
    ensures left { option_map (left source.now) result ≡ arrays.after (arrays.is text.now) (left source.now from) }
{
    match next(source, from) {
        Some(token) => {
            if text_of(source, token) == text {
                Some(token.end)
            } else {
                None
            }
        }
        None => None,
    }
}

/// The place after the first token from here on if it has these bytes, and otherwise here.
fn after_any(source: &[u8], from: usize, text: &[u8]) -> usize
    requires { from ≤ length source.now }
    ensures within { result ≤ length source.now }
    ensures left { left source.now result ≡ arrays.after_any (arrays.is text.now) (left source.now from) }
{
    match after(source, from, text) {
        Some(at) => at,
        None => from,
    }
}

/// The place after the first token from here on if it has nothing but digits, and otherwise here.
fn after_number(source: &[u8], from: usize) -> usize
    requires { from ≤ length source.now }
    ensures within { result ≤ length source.now }
    ensures left { left source.now result ≡ arrays.after_any arrays.is_number (left source.now from) }
{
    match next(source, from) {
        Some(token) => {
            if is_number(text_of(source, token)) {
                token.end
            } else {
                from
            }
        }
        None => from,
    }
}

/// The place after the `{` of an array, if the tokens from here on, behind its name, go on so.
fn body_after_name(source: &[u8], from: usize) -> Option<usize>
    requires { from ≤ length source.now }
    ensures within { IfSome result (λ at. at ≤ length source.now) }
    ensures left { option_map (left source.now) result ≡ arrays.body_after_name (left source.now from) }
{
    let at = after(source, from, b"[")?;
    let at = after(source, after_number(source, at), b"]")?;
    let at = after(source, after_any(source, at, b"PROGMEM"), b"=")?;
    after(source, at, b"{")
}

/// The same, if the token before is this name.
fn body_first(source: &[u8], name: &[u8], token: Span) -> Option<usize>
    requires filled { token.at ≤ token.end }
    requires within { token.end ≤ length source.now }
    ensures within { IfSome result (λ at. at ≤ length source.now) }
    ensures left { option_map (left source.now) result ≡ arrays.body_first name.now (token_at source.now token ∷ left source.now token.end) }
{
    if text_of(source, token) == name {
        body_after_name(source, token.end)
    } else {
        None
    }
}

/// The place after the `{` of the array of this name.
///
/// # Errors
/// `NoArray` or `TwoArrays`.
pub fn body_place(source: &[u8], name: &[u8]) -> Result<usize, TableFault>
    ensures within { IfOk result (λ at. at ≤ length source.now) }
    ensures left { result_map_both (left source.now) (λ fault. fault) result ≡ arrays.one_body (arrays.bodies name.now (left source.now 0)) }
{
    let mut found = None;
    let mut from = 0;
    'tokens: while let Some(token) = next(source, from) {
        if let Some(body) = body_first(source, name, token) {
            if found.is_some() {
                return Err(TableFault::TwoArrays);
            }
            found = Some(body);
        }
        from = token.end;
    }
    found.ok_or(TableFault::NoArray)
}
