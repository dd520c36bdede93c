//! Words written to sinks.

use shelf_io::{MemSink, PutFault, Sink, StdSink, write_all};
use std::alloc::{AllocError, Global};
use std::io::Write;

/// Writes three words to a sink, one piece each, and says how many went out whole and what the first fault was.
fn put_words<O: Sink>(sink: &mut O) -> (u8, Option<PutFault>) {
    let mut whole = 0u8;
    let mut fault = None;
    for word in ["one", "two", "three"] {
        match write_all(sink, word.as_bytes()) {
            Ok(()) => whole = whole.wrapping_add(1),
            Err(e) => fault = fault.or(Some(e)),
        }
    }
    (whole, fault)
}

/// What is told of a sink in memory whose writes of these numbers fail.
pub fn put_in_memory(alloc: Global, fails: Vec<u64>) -> Result<String, AllocError> {
    let mut sink = MemSink::new(alloc, fails);
    let (whole, fault) = put_words(&mut sink);
    let text = String::from_utf8_lossy(alloc, sink.bytes())?;
    format!(in alloc; "{whole} {fault:?}; {text}")
}

/// A stream that takes a byte at a time, and so many in all.
#[derive(Drop)]
struct Narrow {
    bytes: Vec<u8>,
    room: u64,
}

impl Write for Narrow {
    fn write(&mut self, piece: &[u8]) -> std::io::Result<usize> {
        let [first, ..] = piece else {
            return Ok(0);
        };
        if self.bytes.len() as u64 >= self.room {
            return Ok(0);
        }
        self.bytes.push(*first)?;
        Ok(1)
    }

    fn flush(&mut self) -> std::io::Result<()> {
        Ok(())
    }
}

/// What is told of a stream that takes so many bytes in all.
pub fn put_in_stream(alloc: Global, is_terminal: bool, room: &[u64]) -> Result<String, AllocError> {
    let room = room.first().copied().unwrap_or(0);
    let mut stream = Narrow {
        bytes: Vec::new(alloc),
        room,
    };
    let mut sink = StdSink::new(alloc, &mut stream, is_terminal);
    let (whole, fault) = put_words(&mut sink);
    let finished = sink.hand_on().is_ok();
    drop(sink);
    let text = String::from_utf8_lossy(alloc, &stream.bytes)?;
    format!(in alloc; "{whole} {fault:?}; {finished}; {text}")
}
