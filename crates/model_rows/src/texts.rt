//! Texts of rows, as the calls take them.

use std::alloc::{AllocError, Global};

/// The bytes that a text stands for.
pub fn bytes_of(alloc: Global, text: &str) -> Result<Vec<u8>, AllocError> {
    let mut bytes = Vec::new(alloc);
    let mut room = [0; 4];
    for shown in text.chars() {
        match shown {
            '�' => bytes.push(255)?,
            '€' => bytes.push(128)?,
            '␍' => bytes.push(b'\r')?,
            other => bytes.extend_from_slice(other.encode_utf8(&mut room).as_bytes())?,
        }
    }
    Ok(bytes)
}

/// The text of these lines.
pub fn text_of(alloc: Global, lines: &[String]) -> Result<String, AllocError> {
    let mut text = String::new(alloc);
    for line in lines {
        text.push_str(line)?;
        text.push('\n')?;
    }
    Ok(text)
}

/// Puts a text at the end of another one, so many times.
fn push_times(text: &mut String, part: &str, times: u32) -> Result<(), AllocError> {
    for _ in 0..times {
        text.push_str(part)?;
    }
    Ok(())
}

/// A text in which a part as `{3 1, 0, }` is written out, here `1, 0, ` three times.
pub fn written_out(alloc: Global, text: &str) -> Result<String, AllocError> {
    let mut all = String::new(alloc);
    for piece in text.split('{') {
        match piece.split_once('}') {
            Some((part, rest)) => {
                if let Some((times, part)) = part.split_once(' ') {
                    push_times(&mut all, part, times.parse::<u32>().unwrap_or(0))?;
                }
                all.push_str(rest)?;
            }
            None => all.push_str(piece)?,
        }
    }
    Ok(all)
}
