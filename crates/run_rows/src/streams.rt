//! Runs whose out is a stream of the system that has no room past so many bytes, as a full disk.

use crate::memory::{ending, no_taps, shelf_of, words_of};
use shelf_io::{MemSink, StdSink};
use std::alloc::{AllocError, Global};
use std::io::Write;
use wheelsync::run;

/// A stream that takes so many bytes in all.
#[derive(Drop)]
pub struct Narrow {
    bytes: Vec<u8>,
    room: u64,
}

impl Narrow {
    /// One that takes so many bytes.
    pub fn new(alloc: Global, room: u64) -> Narrow {
        Narrow {
            bytes: Vec::new(alloc),
            room,
        }
    }

    /// The bytes that it took.
    pub fn bytes(&self) -> &[u8] {
        &self.bytes
    }
}

impl Write for Narrow {
    fn write(&mut self, piece: &[u8]) -> std::io::Result<usize> {
        let [first, ..] = piece else {
            return Ok(0);
        };
        if self.bytes.len() as u64 >= self.room {
            return Ok(0);
        }
        self.bytes.push(*first)?;
        Ok(1)
    }

    fn flush(&mut self) -> std::io::Result<()> {
        Ok(())
    }
}

/// What is told of words over a wheel and a capture, where out is a stream that takes so many bytes.
pub fn told_of_stream(
    alloc: Global,
    words: &str,
    room: &str,
    files: (&[u8], &[u8]),
) -> Result<Option<String>, AllocError> {
    let Ok(room) = room.parse::<u64>() else {
        return Ok(None);
    };
    let mut shelf = shelf_of(alloc, files, Vec::new(alloc))?;
    let mut stream = Narrow::new(alloc, room);
    let mut out = StdSink::new(alloc, &mut stream, false);
    let mut notes = MemSink::new(alloc, Vec::new(alloc));
    let words = words_of(alloc, words)?;
    let status = run(
        alloc,
        &words,
        &mut shelf,
        &mut out,
        &mut notes,
        no_taps(alloc),
    );
    drop(out);
    let text = String::from_utf8_lossy(alloc, stream.bytes())?;
    let end = ending(alloc, status, &notes)?;
    Ok(Some(format!(in alloc; "{text} / {end}")?))
}
