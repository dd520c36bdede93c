// Standard output or standard error as a sink.
ghost use Rattle.std.specs.Prelude.{◌≡◌, ◌<◌, ◌≤◌, [], length, take, drop, IfOk, IfErr, OnOk};
ghost use Rattle.std.specs.Io.KnownBytes.{Appends, Keeps, WriteAppends, append_known};
ghost use Rattle.shelf_traits.specs.Count.{Fits, HasCause};

use crate::{IoFault, Sink};
use std::alloc::Global;
use std::io::Write;

// How many taken bytes wait at most.
const BUFFER: usize = 1 << 16;

/// A stream of the system, as standard output, as a sink.
///
/// Over a terminal each write goes straight on. Over all else taken bytes wait in a buffer of 64
/// KiB, and are handed on when a write finds it full and by [`Sink::hand_on`], which also flushes the
/// stream. The first write takes the buffer's memory, and answers `Memory` where there is none.
///
/// The count rises at each fault of the stream, and where it takes nothing. Bytes that were taken
/// and could not be handed on go on waiting, in their order and before all later ones: the next
/// write that finds the buffer full or `hand_on` tries them again, and fails while they wait. So no
/// taken byte is lost unless the last `hand_on` fails or is left out.
#[derive(Drop)]
pub struct StdSink<W: Write + Drop> {
    inner: W,
    waiting: Vec<u8>,
    is_terminal: bool,
    faults: u64,
    ghost fits: { Fits faults },
}

// Writes until all is written or a write fails, and says how many bytes were written.
fn hand_out<W: Write>(bytes: &[u8], to: &mut W) -> usize
    ensures bound { result ≤ length bytes.now }
    ensures bytes { Appends (W.contents to.old) (W.contents to.new) (take result bytes.now) }
{
    let mut written = 0;
    while written < bytes.len() {
        match to.write(&bytes[written..]) {
            Ok(count) if count > 0 => written += count,
            _ => return written,
        }
    }
    written
}

// Removes so many bytes from the front.
fn remove_front(bytes: &mut Vec<u8>, count: usize)
    requires { count ≤ length bytes.old.items }
    ensures { bytes.new.items ≡ drop count bytes.old.items }
{
    let len = bytes.len();
    bytes.copy_within(count..len, 0);
    bytes.truncate(len - count);
}

impl<W: Write + Drop> StdSink<W> {
    /// A sink over a stream. Ask `std::io::IsTerminal` of the stream for `is_terminal`. This takes
    /// no memory.
    pub fn new(alloc: Global, inner: W, is_terminal: bool) -> Self
        ensures faults { result.faults ≡ 0 }
        ensures empty { result.waiting.items ≡ [] }
        ensures told { Keeps (W.contents inner) (append_known (W.contents result.inner) result.waiting.items) }
    {
        StdSink {
            inner,
            waiting: Vec::new(alloc),
            is_terminal,
            faults: 0,
        }
    }

    // Writes what waits. What the stream refuses goes on waiting.
    fn write_waiting(&mut self) -> Result<(), IoFault>
        ensures told { Keeps (append_known (W.contents self.old.inner) self.old.waiting.items) (append_known (W.contents self.new.inner) self.new.waiting.items) }
        ensures all { OnOk result (self.new.waiting.items ≡ []) }
        ensures kinds { IfErr result (λ e. e ≡ IoFault.Failed) }
        ensures cause { HasCause self.old.faults self.new.faults result }
    {
        let written = hand_out(&self.waiting, &mut self.inner);
        let rest = self.waiting.len() - written;
        remove_front(&mut self.waiting, written);
        if rest > 0 {
            self.faults = self.faults.saturating_add(1);
            return Err(IoFault::Failed);
        }
        Ok(())
    }

    // How many bytes can wait, at least one. A full buffer is handed on first.
    fn make_room(&mut self) -> Result<usize, IoFault>
        ensures some { IfOk result (λ room. 0 < room) }
        ensures told { Keeps (append_known (W.contents self.old.inner) self.old.waiting.items) (append_known (W.contents self.new.inner) self.new.waiting.items) }
        ensures cause { HasCause self.old.faults self.new.faults result }
    {
        let waiting = self.waiting.len();
        if waiting < BUFFER {
            return Ok(BUFFER - waiting);
        }
        self.write_waiting()?;
        Ok(BUFFER)
    }

    // Writes past the buffer, which is handed on first.
    fn write_through(&mut self, piece: &[u8]) -> Result<usize, IoFault>
        ensures count { IfOk result (λ k. (0 < k) × (k ≤ length piece.now)) }
        ensures bytes { WriteAppends (append_known (W.contents self.old.inner) self.old.waiting.items) (append_known (W.contents self.new.inner) self.new.waiting.items) result piece.now }
        ensures cause { HasCause self.old.faults self.new.faults result }
    {
        self.write_waiting()?;
        match self.inner.write(piece) {
            Ok(taken) if taken > 0 => Ok(taken),
            _ => {
                self.faults = self.faults.saturating_add(1);
                Err(IoFault::Failed)
            }
        }
    }
}

impl<W: Write + Drop> Sink for StdSink<W> {
    ghost use Rattle.std.specs.Prelude.{false, length};

    ghost faults = { λ s. s.faults };

    // told where the stream tells its bytes, as those of the system do not
    ghost taken = { λ s. append_known (W.contents s.inner) s.waiting.items };

    ghost waiting = { λ s. length s.waiting.items };

    ghost steady = { λ s. false };

    fn write(&mut self, piece: &[u8]) -> Result<usize, IoFault> {
        if self.is_terminal {
            return self.write_through(piece);
        }
        let room = self.make_room()?;
        self.waiting.reserve(room)?;
        let count = piece.len().min(room);
        self.waiting.extend_from_slice(&piece[..count])?;
        Ok(count)
    }

    fn hand_on(&mut self) -> Result<(), IoFault> {
        self.write_waiting()?;
        if self.inner.flush().is_err() {
            self.faults = self.faults.saturating_add(1);
            return Err(IoFault::Failed);
        }
        Ok(())
    }
}
