//! What the sections of a dump's header declare.
ghost use Rattle.std.specs.Prelude.{◌≡◌, ℕ, List as Items, IfOk};
ghost use Rattle.std.specs.List.{flat_map};
ghost use Rattle.vcd_header.specs.Headers as headers;
ghost use Rattle.vcd_header.specs.Sightings.{Becomes, SumsUp};
ghost use Rattle.vcd_header.specs.Timescales.{scale_of as scale_spelled};
ghost use Rattle.vcd_header.specs.Words.{kept_words};
ghost use Rattle.vcd_header.specs.declared.signals.Signals.{Signals as ASignals};

use crate::bytes::{is_end, is_keyword};
use crate::section::{Section, section_of};
use crate::sighting::{Sighting, note_if_named, note_if_wanted};
use crate::signals::Signals;
use crate::timescale::{joined, scale_of};
use std::alloc::{AllocError, Global};
use wheel_types::List;

/// What a reader keeps of the sections so far: femtoseconds for a unit of time, the open scopes with the outermost
/// first, and what the variables say of the wanted names. It grows with the open scopes alone.
#[derive(Debug, Drop)]
pub struct HeaderState {
    pub scale: Option<u128>,
    pub scopes: List<List<u8>>,
    pub crank: Sighting,
    pub cam1: Sighting,
    pub cam2: Sighting,
}

impl HeaderState {
    ghost use Rattle.vcd_header.specs.Headers as headers;
    ghost use Rattle.vcd_header.specs.Sightings.{SumsUp};
    ghost use Rattle.vcd_header.specs.declared.signals.Signals.{Signals as ASignals};

    /// Nothing is declared yet.
    pub fn new(alloc: Global) -> HeaderState
        ensures { (wanted : ASignals) → SumsUp wanted result headers.empty_header }
    {
        HeaderState {
            scale: None,
            scopes: List::from_vec(Vec::new(alloc)),
            crank: Sighting::new(),
            cam1: Sighting::new(),
            cam2: Sighting::new(),
        }
    }
}

/// The section that a token between two sections begins.
pub fn section_begun(header: &HeaderState, text: &[u8]) -> Option<Section>
    ensures { (h : headers.Header) → header.now.scale ≡ h.scale → result ≡ headers.section_begun h text.now }
{
    if !is_keyword(text) || is_end(text) {
        return None;
    }
    let section = section_of(text);
    if section == Section::Timescale && header.scale.is_some() {
        return None;
    }
    Some(section)
}

/// The digits spell 1.
fn is_one(digits: &[u8]) -> bool
    ensures { result ≡ headers.is_one digits.now }
{
    let mut started = false;
    'digits: for digit in digits {
        if started {
            return false;
        }
        if *digit == b'1' {
            started = true;
        } else if *digit != b'0' {
            return false;
        }
    }
    started
}

/// More or less than one bit, or a real number.
fn is_wide(kind: &[u8], size: &[u8]) -> bool
    ensures { result ≡ headers.is_wide kind.now size.now }
{
    if is_one(size) {
        kind == b"real".as_slice() || kind == b"realtime".as_slice()
    } else {
        true
    }
}

/// The timescale of these words.
fn with_scale(
    alloc: Global,
    header: &mut HeaderState,
    words: &[List<u8>],
) -> Result<bool, AllocError>
    ensures { IfOk result (λ fits. (wanted : ASignals) (h : headers.Header) → SumsUp wanted header.old h
        → Becomes wanted fits (headers.with_scale h (scale_spelled (flat_map (λ w. w) words.now))) header.new) }
{
    let text = joined(alloc, words)?;
    let Some(scale) = scale_of(text.as_slice()) else {
        return Ok(false);
    };
    header.scale = Some(scale);
    Ok(true)
}

/// The scope of these words is opened.
fn with_scope(
    alloc: Global,
    header: &mut HeaderState,
    words: &[List<u8>],
) -> Result<bool, AllocError>
    ensures { IfOk result (λ fits. (wanted : ASignals) (h : headers.Header) → SumsUp wanted header.old h
        → Becomes wanted fits (headers.with_scope h words.now) header.new) }
{
    let [_, name, ..] = words else {
        return Ok(false);
    };
    let name = List::from_slice(alloc, name.as_slice())?;
    header.scopes.items.push(name)?;
    Ok(true)
}

/// The innermost scope is left.
fn without_scope(header: &mut HeaderState)
    ensures { (wanted : ASignals) (h : headers.Header) → SumsUp wanted header.old h → SumsUp wanted header.new (headers.without_scope h) }
{
    let _ = header.scopes.items.pop();
}

/// Takes note of the variable of these words, by each wanted name that it has.
fn with_var(
    alloc: Global,
    wanted: &Signals,
    header: &mut HeaderState,
    words: &[List<u8>],
) -> Result<bool, AllocError>
    ensures { IfOk result (λ fits. (h : headers.Header) → SumsUp wanted.now header.old h → Becomes wanted.now fits (headers.with_var h words.now) header.new) }
{
    let [kind, size, code, own, ..] = words else {
        return Ok(false);
    };
    let wide = is_wide(kind.as_slice(), size.as_slice());
    let (code, own) = (code.as_slice(), own.as_slice());
    let scopes = header.scopes.as_slice();
    note_if_named(
        alloc,
        &mut header.crank,
        wanted.crank.as_slice(),
        scopes,
        own,
        code,
        wide,
    )?;
    note_if_wanted(
        alloc,
        &mut header.cam1,
        &wanted.cam1,
        scopes,
        own,
        code,
        wide,
    )?;
    note_if_wanted(
        alloc,
        &mut header.cam2,
        &wanted.cam2,
        scopes,
        own,
        code,
        wide,
    )?;
    Ok(true)
}

/// Takes up what a section of these words declares, where it is of the form.
fn with_words(
    alloc: Global,
    wanted: &Signals,
    header: &mut HeaderState,
    section: Section,
    words: &[List<u8>],
) -> Result<bool, AllocError>
    ensures { IfOk result (λ fits. (h : headers.Header) → SumsUp wanted.now header.old h
        → Becomes wanted.now fits (headers.with_section h section words.now) header.new) }
{
    match section {
        Section::Timescale => with_scale(alloc, header, words),
        Section::Scope => with_scope(alloc, header, words),
        Section::Upscope => {
            without_scope(header);
            Ok(true)
        }
        Section::Variable => with_var(alloc, wanted, header, words),
        Section::EndDefinitions | Section::Other => Ok(true),
    }
}

/// Takes up what a whole section declares, where it is of the form, by those of its words that are kept.
pub fn with_section(
    alloc: Global,
    wanted: &Signals,
    header: &mut HeaderState,
    section: Section,
    words: &[List<u8>],
) -> Result<bool, AllocError>
    ensures { IfOk result (λ fits. (h : headers.Header) (all : Items (Items ℕ)) → SumsUp wanted.now header.old h → words.now ≡ kept_words section all
        → Becomes wanted.now fits (headers.with_section h section all) header.new) }
{
    with_words(alloc, wanted, header, section, words)
}
