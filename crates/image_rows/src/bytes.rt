//! Images of rows, from texts.

use hex::{FromHexError, decode};
use std::alloc::{AllocError, Global};

/// Bytes from a text, or `None` where it is none of bytes.
type Bytes = Result<Option<Vec<u8>>, AllocError>;

/// The bytes of hexadecimal digits.
fn decoded(alloc: Global, digits: &str) -> Bytes {
    match decode(alloc, digits.as_bytes()) {
        Ok(bytes) => Ok(Some(bytes)),
        Err(FromHexError::OutOfMemory) => Err(AllocError),
        Err(_) => Ok(None),
    }
}

/// Adds bytes so many times.
fn push_times(bytes: &mut Vec<u8>, times: u32, part: &[u8]) -> Result<(), AllocError> {
    for _ in 0..times {
        bytes.extend_from_slice(part)?;
    }
    Ok(())
}

/// The bytes of a text in which a word as `3*00` is `000000`.
fn written_out(alloc: Global, text: &str) -> Bytes {
    let mut bytes = Vec::new(alloc);
    for word in text.split_whitespace() {
        let (times, digits) = word.split_once('*').unwrap_or(("1", word));
        let Some(part) = decoded(alloc, digits)? else {
            return Ok(None);
        };
        push_times(&mut bytes, times.parse().unwrap_or(0), part.as_slice())?;
    }
    Ok(Some(bytes))
}

/// Writes bytes from a place on, as far as there are bytes there.
pub fn write_at(bytes: &mut [u8], at: usize, part: &[u8]) {
    for (byte, new) in bytes.iter_mut().skip(at).zip(part.iter()) {
        *byte = *new;
    }
}

/// The bytes after a change such as `first=100`, `and=00` or `8=6500`.
fn changed(alloc: Global, bytes: Vec<u8>, change: &str) -> Bytes {
    let mut bytes = bytes;
    let Some((key, value)) = change.split_once('=') else {
        return Ok(None);
    };
    if key == "first" {
        bytes.truncate(value.parse().unwrap_or(0));
        return Ok(Some(bytes));
    }
    let Some(part) = written_out(alloc, value)? else {
        return Ok(None);
    };
    if key == "and" {
        bytes.extend_from_slice(part.as_slice())?;
    } else {
        let Ok(at) = key.parse() else {
            return Ok(None);
        };
        write_at(bytes.as_mut_slice(), at, part.as_slice());
    }
    Ok(Some(bytes))
}

/// The bytes after the changes of a text.
fn all_changed(alloc: Global, bytes: Vec<u8>, changes: &str) -> Bytes {
    let mut bytes = bytes;
    for change in changes.split_whitespace() {
        bytes = match changed(alloc, bytes, change)? {
            Some(bytes) => bytes,
            None => return Ok(None),
        };
    }
    Ok(Some(bytes))
}

/// The bytes that the last fields of a row name: an image, and changes of it.
pub fn image_of(alloc: Global, fields: &[String]) -> Bytes {
    match fields {
        [image] => written_out(alloc, image),
        [image, changes] => match written_out(alloc, image)? {
            Some(bytes) => all_changed(alloc, bytes, changes),
            None => Ok(None),
        },
        _ => Ok(None),
    }
}
