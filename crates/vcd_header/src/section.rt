//! The sections of a header, and which of their words are kept.
ghost use Rattle.std.specs.Prelude.{◌≡◌, ◌++◌, ◌∷◌, [], List as Items, ℕ, OnOk, length};
ghost use Rattle.std.specs.List.{flat_map};
ghost use Rattle.vcd_header.specs.Headers as headers;
ghost use Rattle.vcd_header.specs.Texts as texts;
ghost use Rattle.vcd_header.specs.Words.{front_word, kept_words, is_kept as is_kept_word};

use crate::bytes::all_code_bytes;
use capture_core::all_digits;
use std::alloc::{AllocError, Global};
use wheel_types::List;

/// The kinds of section of a header.
#[derive(Clone, Copy, Debug, PartialEq, Eq)]
pub enum Section {
    Timescale,
    Scope,
    Upscope,
    Variable,
    EndDefinitions,
    Other,
}

/// The kind of section that a keyword begins.
pub fn section_of(text: &[u8]) -> Section
    ensures { result ≡ headers.section_of text.now }
{
    if text == b"$timescale".as_slice() {
        Section::Timescale
    } else if text == b"$scope".as_slice() {
        Section::Scope
    } else if text == b"$upscope".as_slice() {
        Section::Upscope
    } else if text == b"$var".as_slice() {
        Section::Variable
    } else if text == b"$enddefinitions".as_slice() {
        Section::EndDefinitions
    } else {
        Section::Other
    }
}

/// A word may stand in the section with so many words before it.
pub fn word_fits(section: Section, before: usize, text: &[u8]) -> bool
    ensures { result ≡ headers.word_fits section before text.now }
{
    match section {
        Section::Variable if before == 1 => all_digits(text),
        Section::Variable if before == 2 => all_code_bytes(text),
        _ => true,
    }
}

/// The section's end needs one more word than these.
fn is_kept(section: Section, words: usize) -> bool
    ensures { result ≡ is_kept_word section words }
{
    match section {
        Section::Scope => words < 2,
        Section::Variable => words < 4,
        Section::Timescale | Section::Upscope | Section::EndDefinitions | Section::Other => false,
    }
}

/// Takes out the word of a timescale that is kept, which is empty where there is none.
fn front_of(alloc: Global, words: &mut List<List<u8>>) -> List<u8>
    ensures { (all : Items (Items ℕ)) → words.old ≡ front_word all → (flat_map (λ w. w) (front_word all) ≡ result) × (words.new ≡ []) }
{
    match words.items.pop() {
        Some(front) => front,
        None => List::from_vec(Vec::new(alloc)),
    }
}

/// Adds a word of a timescale to the one that is kept, which is the first six bytes of all.
fn keep_front(alloc: Global, words: &mut List<List<u8>>, text: &[u8]) -> Result<(), AllocError>
    ensures ok { OnOk result ((all : Items (Items ℕ)) → words.old ≡ front_word all → words.new ≡ front_word (all ++ text.now ∷ [])) }
{
    let mut front = front_of(alloc, words);
    let room = 6usize.saturating_sub(front.as_slice().len());
    let count = room.min(text.len());
    front.items.extend_from_slice(&text[..count])?;
    words.items.push(front)?;
    Ok(())
}

/// Adds a word of the section to those that are kept, where its end needs it. Of a timescale six bytes are kept.
pub fn keep_word(
    alloc: Global,
    words: &mut List<List<u8>>,
    section: Section,
    text: &[u8],
) -> Result<(), AllocError>
    ensures ok { OnOk result ((all : Items (Items ℕ)) → words.old ≡ kept_words section all → words.new ≡ kept_words section (all ++ text.now ∷ [])) }
{
    if section == Section::Timescale {
        return keep_front(alloc, words, text);
    }
    if is_kept(section, words.items.len()) {
        let word = List::from_slice(alloc, text)?;
        words.items.push(word)?;
    }
    Ok(())
}
