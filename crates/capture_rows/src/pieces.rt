//! A reader of dumps, as it is fed and as its instants are taken.
ghost use Rattle.std.specs.Prelude.{◌≡◌, ◌+◌, ◌<◌, ◌^◌, IfOk, length};
ghost use Rattle.vcd_reader.specs.Readers.{bytes_read};

use crate::edges::push_instant;
use crate::watched::Watched;
use std::alloc::{AllocError, Global};
use vcd_reader::{FeedFault, VcdReader};
use wheel_types::Instant;

// As many bytes as a file is read by.
const PIECE: usize = 1 << 16;

/// A reader of what is watched.
pub fn reader_of(alloc: Global, watched: &Watched) -> Result<VcdReader, AllocError>
    ensures { IfOk result (λ r. bytes_read r ≡ 0) }
{
    match VcdReader::new(alloc, &watched.names, watched.watch) {
        Ok(reader) => Ok(reader),
        Err(_) => Err(AllocError),
    }
}

/// The texts of the instants that wait, ten at most.
pub fn instants_of(alloc: Global, reader: &mut VcdReader) -> Result<String, AllocError>
    ensures { bytes_read reader.new ≡ bytes_read reader.old }
{
    let mut told = String::new(alloc);
    'turns: for _ in 0..10 {
        if let Some(instant) = reader.take() {
            push_instant(&mut told, instant)?;
        }
    }
    Ok(told)
}

/// Feeds the bytes one by one, and gives the last answer.
pub fn feed_bytes(reader: &mut VcdReader, bytes: &[u8]) -> Result<(), FeedFault>
    requires { bytes_read reader.old + length bytes.now < 2 ^ 64 }
{
    let mut fed = Ok(());
    'bytes: for at in 0..bytes.len() {
        fed = reader.feed(&bytes[at..at + 1]);
    }
    fed
}

/// Feeds the bytes 65,536 at a time, and gives the last answer.
pub fn feed_pieces(reader: &mut VcdReader, bytes: &[u8]) -> Result<(), FeedFault>
    requires { bytes_read reader.old + length bytes.now < 2 ^ 64 }
{
    let mut rest = bytes;
    'pieces: while rest.len() > PIECE {
        let (piece, more) = rest.split_at(PIECE);
        let _ = reader.feed(piece);
        rest = more;
    }
    reader.feed(rest)
}

/// Takes the instants that wait, so many at most, and gives their number and the last of them.
pub fn count_taken(reader: &mut VcdReader, most: usize) -> (usize, Option<Instant>) {
    let mut last = None;
    for count in 0..most {
        match reader.take() {
            Some(instant) => last = Some(instant),
            None => return (count, last),
        }
    }
    (most, last)
}
