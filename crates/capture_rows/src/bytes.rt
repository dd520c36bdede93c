//! The bytes that a row's texts stand for.
ghost use Rattle.std.specs.Prelude.{◌<◌};

use std::alloc::{AllocError, Global};

/// The number that a hexadecimal digit stands for.
fn digit_of(digit: u8) -> u8
    ensures { result < 16 }
{
    match digit {
        b'0'..=b'9' => digit - b'0',
        b'a'..=b'f' => digit - b'a' + 10,
        _ => 0,
    }
}

/// Adds the byte that two digits stand for, and the bytes after them.
fn push_escaped(bytes: &mut Vec<u8>, text: &[u8]) -> Result<(), AllocError> {
    if let [high, low, rest @ ..] = text {
        bytes.push(16 * digit_of(*high) + digit_of(*low))?;
        bytes.extend_from_slice(rest)?;
    }
    Ok(())
}

/// Adds the bytes of a text, where `\xff` stands for the byte 255.
fn push_text(bytes: &mut Vec<u8>, text: &str) -> Result<(), AllocError> {
    for (number, part) in text.split("\\x").enumerate() {
        if number == 0 {
            bytes.extend_from_slice(part.as_bytes())?;
        } else {
            push_escaped(bytes, part.as_bytes())?;
        }
    }
    Ok(())
}

/// Adds copies of a text, where `%` stands for the copy's number, from 0.
fn push_copies(
    alloc: Global,
    bytes: &mut Vec<u8>,
    count: u64,
    text: &str,
) -> Result<(), AllocError> {
    for number in 0..count {
        let number = format!(in alloc; "{number}")?;
        let copy = text.replace(alloc, '%', &number)?;
        push_text(bytes, &copy)?;
    }
    Ok(())
}

/// How many copies of which text a text asks for, as `9 × TEXT`.
fn copies_in(text: &str) -> Option<(u64, &str)> {
    let (count, copied) = text.split_once(" × ")?;
    match count.parse::<u64>() {
        Ok(count) => Some((count, copied)),
        Err(_) => None,
    }
}

/// The bytes of texts and of copies of texts, joined.
pub fn bytes_of(alloc: Global, texts: &[String]) -> Result<Vec<u8>, AllocError> {
    let mut bytes = Vec::new(alloc);
    for text in texts {
        match copies_in(text) {
            Some((count, copied)) => push_copies(alloc, &mut bytes, count, copied)?,
            None => push_text(&mut bytes, text)?,
        }
    }
    Ok(bytes)
}
