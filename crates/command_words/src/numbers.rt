//! Words that are numbers, and those that name a form of a capture.
ghost use Rattle.std.specs.Prelude.{◌≡◌, ◌≤◌, ◌^◌, IfSome};
ghost use Rattle.command_words.specs.Numbers.{number_of, seed_of, gaps_of, form_of};
ghost use Rattle.command_words.specs.Orders.{HasGaps};

use capture_core::{all_digits, number_within};

/// Which of the two forms of a capture.
#[derive(Clone, Copy, Debug, PartialEq, Eq)]
pub enum Form {
    /// `vcd`, a value change dump.
    Vcd,
    /// `csv`, rows of comma-separated values.
    Csv,
}

/// The greatest number of gaps that a command may ask for.
const MOST_GAPS: u64 = 1_000_000;

/// The number that a word of digits alone spells, where it is from `least` to `most`.
fn number_between(word: &str, least: u64, most: u64) -> Option<u64>
    ensures number { result ≡ number_of least most word.now }
    ensures least { IfSome result (λ number. least ≤ number) }
    ensures most { IfSome result (λ number. number ≤ most) }
{
    let bytes = word.as_bytes();
    if bytes.is_empty() || !all_digits(bytes) {
        return None;
    }
    match number_within(0, bytes, u128::from(most)) {
        Some(number) if u128::from(least) <= number => Some(number as u64),
        _ => None,
    }
}

/// The seed that a word spells.
pub fn seed_in(word: &str) -> Option<u64>
    ensures { result ≡ seed_of word.now }
{
    number_between(word, 0, u64::MAX)
}

/// How many gaps a word asks for.
pub fn gaps_in(word: &str) -> Option<u32>
    ensures gaps { result ≡ gaps_of word.now }
    ensures range { IfSome result HasGaps }
{
    match number_between(word, 1, MOST_GAPS) {
        Some(gaps) => Some(gaps as u32),
        None => None,
    }
}

/// The form that a word names.
pub fn form_in(word: &str) -> Option<Form>
    ensures { result ≡ form_of word.now }
{
    if word == "vcd" {
        Some(Form::Vcd)
    } else if word == "csv" {
        Some(Form::Csv)
    } else {
        None
    }
}
