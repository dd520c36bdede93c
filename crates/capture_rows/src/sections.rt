//! Sections of headers.

use crate::watched::Watched;
use std::alloc::{AllocError, Global};
use vcd_header::{
    HeaderState, Sighting, Signals, keep_word, section_begun, wanted_by, with_section, word_fits,
};
use wheel_types::List;

/// The names of open scopes, with a blank between two.
fn scopes_of(alloc: Global, header: &HeaderState) -> Result<String, AllocError> {
    let mut text = String::new(alloc);
    for scope in header.scopes.as_slice() {
        if !text.is_empty() {
            text.push_str(" ")?;
        }
        let name = String::from_utf8_lossy(alloc, scope.as_slice())?;
        text.push_str(&name)?;
    }
    Ok(text)
}

/// Adds what the variables say of a channel's name: its code, whether it has two, and whether one is wide.
fn push_seen(
    alloc: Global,
    text: &mut String,
    channel: &str,
    seen: &Sighting,
) -> Result<(), AllocError> {
    let Some(code) = &seen.code else {
        return Ok(());
    };
    let code = String::from_utf8_lossy(alloc, code.as_slice())?;
    let two = if seen.is_twofold { " two" } else { "" };
    let wide = if seen.is_wide { " wide" } else { "" };
    write!(text, " {channel} {code}{two}{wide}")
}

/// What the variables say of each channel's name.
fn all_seen(alloc: Global, header: &HeaderState) -> Result<String, AllocError> {
    let mut text = String::new(alloc);
    push_seen(alloc, &mut text, "crank", &header.crank)?;
    push_seen(alloc, &mut text, "cam1", &header.cam1)?;
    push_seen(alloc, &mut text, "cam2", &header.cam2)?;
    Ok(text)
}

/// Takes up a section, and says what does not fit in it.
fn take_up(
    alloc: Global,
    wanted: &Signals,
    header: &mut HeaderState,
    section: &str,
) -> Result<Option<String>, AllocError> {
    let (first, rest) = section.split_once(' ').unwrap_or((section, ""));
    let Some(kind) = section_begun(header, first.as_bytes()) else {
        return Ok(Some(format!(in alloc; "no section: {first}")?));
    };
    let mut words: List<List<u8>> = List::from_vec(Vec::new(alloc));
    for word in rest.split_whitespace() {
        if !word_fits(kind, words.as_slice().len(), word.as_bytes()) {
            return Ok(Some(format!(in alloc; "no word: {word}")?));
        }
        keep_word(alloc, &mut words, kind, word.as_bytes())?;
    }
    if with_section(alloc, wanted, header, kind, words.as_slice())? {
        Ok(None)
    } else {
        Ok(Some(String::from_str(alloc, "no section that ends")?))
    }
}

/// What is kept of the sections' declarations: the femtoseconds of a unit of time, the open scopes, and what the
/// variables say of the watched names; or which word does not fit.
pub fn told_of_sections(
    alloc: Global,
    watched: &Watched,
    sections: &[String],
) -> Result<String, AllocError> {
    let wanted = wanted_by(alloc, &watched.names, watched.watch)?;
    let mut header = HeaderState::new(alloc);
    for section in sections {
        if let Some(misfit) = take_up(alloc, &wanted, &mut header, section)? {
            return Ok(misfit);
        }
    }
    let scopes = scopes_of(alloc, &header)?;
    let seen = all_seen(alloc, &header)?;
    format!(in alloc; "{}, [{scopes}],{seen}", header.scale.unwrap_or(0))
}
