//! Writing an image.
ghost use Rattle.std.specs.Prelude.{◌≡◌, ◌≤◌, ◌<◌, ◌+◌, ◌^◌, ◌++◌, IfOk, OnOk, flat_map, length};
ghost use Rattle.byteorder.specs.Endian.{little_bytes};
ghost use Rattle.wheel_types.specs.Edges.{below};
ghost use Rattle.image_layout.specs.Parts.{word as word_bytes, words as words_bytes, zeros_after, keep_code, place_words, ratio_words, kind_words, state_words, body, image_bytes, AreSmall};

use crate::kind::Kind;
use crate::parts::ImageParts;
use byteorder::{ByteOrder, LittleEndian};
use std::alloc::{AllocError, Global};
use wheel_types::{Keep, Memory, Place};

/// Two bytes more.
fn push_half(out: &mut Vec<u8>, half: u16) -> Result<(), AllocError>
    ensures ok { OnOk result (out.new.items ≡ out.old.items ++ little_bytes 2 half) }
{
    let mut buffer = [0u8; 2];
    LittleEndian::write_u16(&mut buffer, half);
    out.extend_from_slice(&buffer)
}

/// Four bytes more.
#[tactic(auto, unfolding(crate::specs::Parts::word))]
fn push_word(out: &mut Vec<u8>, word: u32) -> Result<(), AllocError>
    ensures ok { OnOk result (out.new.items ≡ out.old.items ++ word_bytes word) }
{
    let mut buffer = [0u8; 4];
    LittleEndian::write_u32(&mut buffer, word);
    out.extend_from_slice(&buffer)
}

/// Eight bytes more.
fn push_long(out: &mut Vec<u8>, long: u64) -> Result<(), AllocError>
    ensures ok { OnOk result (out.new.items ≡ out.old.items ++ little_bytes 8 long) }
{
    let mut buffer = [0u8; 8];
    LittleEndian::write_u64(&mut buffer, long);
    out.extend_from_slice(&buffer)
}

fn push_words(out: &mut Vec<u8>, words: &[u32]) -> Result<(), AllocError>
    ensures ok { OnOk result (out.new.items ≡ out.old.items ++ words_bytes words.now) }
{
    for word in words {
        push_word(out, *word)?;
    }
    Ok(())
}

fn push_longs(out: &mut Vec<u8>, longs: &[u64]) -> Result<(), AllocError>
    ensures ok { OnOk result (out.new.items ≡ out.old.items ++ flat_map (little_bytes 8) longs.now) }
{
    for long in longs {
        push_long(out, *long)?;
    }
    Ok(())
}

fn push_halves(out: &mut Vec<u8>, rows: &[u16]) -> Result<(), AllocError>
    ensures ok { OnOk result (out.new.items ≡ out.old.items ++ flat_map (little_bytes 2) rows.now) }
{
    for row in rows {
        push_half(out, *row)?;
    }
    Ok(())
}

fn push_place(out: &mut Vec<u8>, place: Place) -> Result<(), AllocError>
    ensures ok { OnOk result (out.new.items ≡ out.old.items ++ words_bytes (place_words place)) }
{
    push_words(
        out,
        &[place.j, place.n1.cast_unsigned(), place.n2.cast_unsigned()],
    )
}

fn push_places(out: &mut Vec<u8>, places: &[Place]) -> Result<(), AllocError>
    ensures ok { OnOk result (out.new.items ≡ out.old.items ++ flat_map (λ place. words_bytes (place_words place)) places.now) }
{
    for place in places {
        push_place(out, *place)?;
    }
    Ok(())
}

fn push_ratios(out: &mut Vec<u8>, cuts: &[(u32, u32)]) -> Result<(), AllocError>
    ensures ok { OnOk result (out.new.items ≡ out.old.items ++ flat_map (λ cut. words_bytes (ratio_words cut)) cuts.now) }
{
    for cut in cuts {
        push_words(out, &[cut.0, cut.1])?;
    }
    Ok(())
}

fn kind_words(phase: u8, kind: Kind) -> [u32; 4]
    ensures { result ≡ kind_words phase kind }
{
    let phase = u32::from(phase);
    match kind {
        Kind::Dead => [phase, 0, 0, 0],
        Kind::At { j } => [phase, 1, j, 0],
        Kind::Open { e, f } => [phase, 2, e, f],
    }
}

fn push_state(out: &mut Vec<u8>, parts: &ImageParts, q: usize) -> Result<(), AllocError>
    requires phase { q < length parts.now.phases.items }
    requires kind { q < length parts.now.kinds.items }
    ensures ok { OnOk result (out.new.items ≡ out.old.items ++ words_bytes (state_words parts.now q)) }
{
    push_words(out, &kind_words(parts.phases[q], parts.kinds[q]))
}

fn push_states(out: &mut Vec<u8>, parts: &ImageParts) -> Result<(), AllocError>
    requires { length parts.now.kinds.items ≡ length parts.now.phases.items }
    ensures ok { OnOk result (out.new.items ≡ out.old.items ++ flat_map (λ q. words_bytes (state_words parts.now q)) (below (length parts.now.phases.items))) }
{
    for q in 0..parts.phases.len() {
        push_state(out, parts, q)?;
    }
    Ok(())
}

/// The zeros after a section of this length.
fn pad(out: &mut Vec<u8>, length: usize) -> Result<(), AllocError>
    requires { length < 2 ^ 32 }
    ensures ok { OnOk result (out.new.items ≡ out.old.items ++ zeros_after length) }
{
    let zeros = (length + 7) / 8 * 8 - length;
    for _i in 0..zeros {
        out.push(0)?;
    }
    Ok(())
}

fn keep_code(keep: Keep) -> u32
    ensures code { result ≡ keep_code keep }
    ensures most { result ≤ 3 }
{
    match keep {
        Keep::Rising => 1,
        Keep::Falling => 2,
        Keep::Both => 3,
    }
}

/// The sections 1 to 7.
fn sections(alloc: Global, parts: &ImageParts) -> Result<Vec<u8>, AllocError>
    requires { AreSmall parts.now }
    ensures { IfOk result (λ bytes. bytes.items ≡ body parts.now) }
{
    let mut out = Vec::new(alloc);
    let slots = parts.wheel.slots.as_slice();
    out.extend_from_slice(slots)?;
    pad(&mut out, slots.len())?;
    push_places(&mut out, parts.places.as_slice())?;
    pad(&mut out, 12 * parts.places.len())?;
    push_longs(&mut out, parts.time_cuts.as_slice())?;
    push_ratios(&mut out, parts.ratio_cuts.as_slice())?;
    push_states(&mut out, parts)?;
    push_longs(&mut out, parts.members.as_slice())?;
    push_halves(&mut out, parts.rows.as_slice())?;
    pad(&mut out, 2 * parts.rows.len())?;
    Ok(out)
}

/// The bytes of an image of these parts, as `Sections` lays them out.
///
/// # Errors
/// Want of memory.
pub fn write_image(alloc: Global, parts: &ImageParts) -> Result<Vec<u8>, Memory>
    requires small { AreSmall parts.now }
    requires short { 72 + length (body parts.now) < 2 ^ 32 }
    ensures { IfOk result (λ bytes. bytes.items ≡ image_bytes parts.now) }
{
    let body = sections(alloc, parts)?;
    let wheel = &parts.wheel;
    let keep = keep_code(wheel.crank) + 4 * keep_code(wheel.cam1) + 16 * keep_code(wheel.cam2);
    let header = [
        0x4e595357,
        1,
        72 + body.len() as u32,
        wheel.slots.as_slice().len() as u32,
        parts.places.len() as u32,
        parts.time_cuts.len() as u32,
        parts.ratio_cuts.len() as u32,
        parts.phases.len() as u32,
        wheel.degrees,
        keep,
        wheel.cam1_early,
        wheel.cam1_late,
        wheel.cam2_early,
        wheel.cam2_late,
        wheel.rpm_low,
        wheel.rpm_high,
        wheel.rn,
        wheel.rd,
    ];
    let mut out = Vec::new(alloc);
    push_words(&mut out, &header)?;
    out.extend_from_slice(body.as_slice())?;
    Ok(out)
}
