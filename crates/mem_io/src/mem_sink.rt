// A sink in memory.
ghost use Rattle.std.specs.Prelude.{◌≡◌, ◌<◌, ◌≤◌, [], IfOk, IsErrOf, IsTrue, Some, length};
ghost use Rattle.std.specs.Io.KnownBytes.{WriteAppends};
ghost use Rattle.mem_io.specs.Calls.{is_calm, IsCall};
ghost use Rattle.shelf_traits.specs.Count.{HasCause, Fits};

use crate::calls::Calls;
use shelf_traits::{IoFault, Sink};
use std::alloc::Global;

/// A sink in memory, which tells its bytes to contracts.
///
/// Its writes are numbered from 0, and a write fails where its number is in a list (the number
/// stops at the greatest u64). A write that does not fail takes the whole piece, and no byte waits.
#[derive(Drop)]
pub struct MemSink {
    bytes: Vec<u8>,
    calls: Calls,
    faults: u64,
    ghost fits: { Fits faults },
}

impl MemSink {
    ghost use Rattle.mem_io.specs.MemSink.{sink_bytes, sink_calls, sink_is_steady, sink_faults};

    /// An empty sink. The writes whose numbers are in `fails` fail.
    pub fn new(alloc: Global, fails: Vec<u64>) -> Self
        ensures bytes { sink_bytes result ≡ [] }
        ensures faults { sink_faults result ≡ 0 }
        ensures steady { sink_is_steady result ≡ is_calm fails.items 0 }
        ensures always { fails.items ≡ [] → IsTrue (sink_is_steady result) }
        ensures next { (sink_calls result).next ≡ 0 }
        ensures fails { (sink_calls result).fails.items ≡ fails.items }
    {
        MemSink {
            bytes: Vec::new(alloc),
            calls: Calls::new(fails),
            faults: 0,
        }
    }

    /// The bytes taken so far.
    pub fn bytes(&self) -> &[u8]
        ensures { result.now ≡ sink_bytes self.now }
    {
        &self.bytes
    }
}

impl Sink for MemSink {
    ghost use Rattle.mem_io.specs.MemSink.{sink_bytes, sink_calls, sink_is_steady, sink_faults};

    ghost faults = { sink_faults };

    ghost taken = { λ s. Some (sink_bytes s) };

    ghost waiting = { λ s. 0 };

    ghost steady = { sink_is_steady };

    fn write(&mut self, piece: &[u8]) -> Result<usize, IoFault>
        requires { 0 < length piece.now }
        ensures count { IfOk result (λ k. (0 < k) × (k ≤ length piece.now)) }
        ensures bytes { WriteAppends (Some (sink_bytes self.old)) (Some (sink_bytes self.new)) result piece.now }
        ensures cause { HasCause (sink_faults self.old) (sink_faults self.new) result }
        ensures steady { IsTrue (sink_is_steady self.old) → IsTrue (sink_is_steady self.new) }
        ensures calm { IsTrue (sink_is_steady self.old) → sink_faults self.new ≡ sink_faults self.old }
        ensures no_fault { IsTrue (sink_is_steady self.old) → ¬ IsErrOf result IoFault.Failed }
        ensures fits { Fits (sink_faults self.new) }
        ensures call { IsCall (sink_calls self.old) (sink_calls self.new) (IsErrOf result IoFault.Failed) ⊥ }
        ensures whole { IfOk result (λ k. k ≡ length piece.now) }
    {
        if self.calls.fails_next() {
            self.faults = self.faults.saturating_add(1);
            return Err(IoFault::Failed);
        }
        self.bytes.extend_from_slice(piece)?;
        Ok(piece.len())
    }

    fn hand_on(&mut self) -> Result<(), IoFault> {
        Ok(())
    }
}
