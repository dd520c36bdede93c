// Whole files and whole texts, over any shelf and any sink.
ghost use Rattle.std.specs.Prelude.{◌≡◌, ◌<◌, ◌≤◌, ◌+◌, ◌-◌, ◌^◌, ◌↔◌, ◌++◌, [], ℕ, List, length, take, IfOk, IfErr, OnErr, OnOk, IsTrue, IsErrOf, IsSome, MatchResult};
ghost use Rattle.std.specs.Io.KnownBytes.{Appends};
ghost use Rattle.shelf_traits.specs.Count.{Rose, Fits};
ghost use Rattle.shelf_traits.specs.Shelf.{CountsFit, IsReader, IsWriter, Passed, ReadsOn, WritesOn, left_at, file_at, given_of};
ghost use Rattle.shelf_io.specs.Whole.{IsGiven, PutFront, PutCause, UnlessFailed, written_of};

use crate::{IoFault, LoadFault, PutFault, Shelf, Sink};
use std::alloc::Global;

/// The greatest length of a file that is read, in bytes.
pub const MAX_FILE: usize = 1 << 28;

// How many bytes one read asks for.
const PIECE: usize = 1 << 16;

/// Writes a whole piece to a sink, in as many writes as that needs. It takes no memory of its own.
///
/// At an error the first `written` bytes of the piece went out, and no others. `Failed` comes only
/// where the sink's count rose.
pub fn write_all<O: Sink>(sink: &mut O, piece: &[u8]) -> Result<(), PutFault>
    ensures later { O.faults sink.old ≤ O.faults sink.new }
    ensures steady { IsTrue (O.steady sink.old) → IsTrue (O.steady sink.new) }
    ensures calm { IsTrue (O.steady sink.old) → O.faults sink.new ≡ O.faults sink.old }
    ensures no_fault { IsTrue (O.steady sink.old) → IfErr result (PutCause ⊥) }
    ensures ok { OnOk result (Appends (O.taken sink.old) (O.taken sink.new) piece.now) }
    ensures err { IfErr result (PutFront (O.taken sink.old) (O.taken sink.new) piece.now) }
    ensures cause { IfErr result (PutCause (Rose (O.faults sink.old) (O.faults sink.new))) }
    ensures quiet { UnlessFailed (O.faults sink.new ≡ O.faults sink.old) result }
    ensures fits { Fits (O.faults sink.old) → Fits (O.faults sink.new) }
{
    let mut written = 0;
    while written < piece.len() {
        match sink.write(&piece[written..]) {
            Ok(taken) => written += taken,
            Err(IoFault::Failed) => {
                return Err(PutFault::Failed {
                    written: written as u64,
                });
            }
            Err(IoFault::Memory) => {
                return Err(PutFault::Memory {
                    written: written as u64,
                });
            }
        }
    }
    Ok(())
}

/// Reads a slot's file from its place to its end, with a buffer of 65,536 bytes.
///
/// `TooLong` comes exactly where more than `MAX_FILE` bytes were given, and `Failed` only where the
/// shelf's count of open and read rose. The slot's place moves by as many bytes as were given,
/// whatever the answer.
pub fn read_all<S: Shelf>(alloc: Global, shelf: &mut S, slot: u32) -> Result<Vec<u8>, LoadFault>
    requires { IsReader (S.view shelf.old) slot }
    ensures keeps { ReadsOn (S.view shelf.old) (S.view shelf.new) slot }
    ensures cause { IsErrOf result LoadFault.Failed → Rose (S.view shelf.old).faults_in (S.view shelf.new).faults_in }
    ensures quiet { ¬ IsErrOf result LoadFault.Failed → (S.view shelf.new).faults_in ≡ (S.view shelf.old).faults_in }
    ensures calm { IsTrue (S.view shelf.old).steady → ¬ IsErrOf result LoadFault.Failed }
    ensures short { IfOk result (λ bytes. length bytes.items ≤ 2 ^ 28) }
    ensures whole { IsTrue (S.view shelf.old).tells → IfOk result (λ bytes. bytes.items ≡ left_at (S.view shelf.old) slot) }

    // TooLong comes exactly where more than 2^28 bytes were given.
    ensures long { IsTrue (S.view shelf.old).tells → IsErrOf result LoadFault.TooLong →
        ((S.view shelf.old).place slot).at + 2 ^ 28 < ((S.view shelf.new).place slot).at }
    ensures not_long { IsTrue (S.view shelf.old).tells → IsErrOf result LoadFault.Failed →
        ((S.view shelf.new).place slot).at ≤ ((S.view shelf.old).place slot).at + 2 ^ 28 }
    ensures moved { IsTrue (S.view shelf.old).tells → IfOk result (λ bytes. Passed (S.view shelf.old) (S.view shelf.new) slot (length bytes.items)) }
    ensures given { IsTrue (S.view shelf.old).tells → OnErr result (Passed (S.view shelf.old) (S.view shelf.new) slot (given_of (S.view shelf.old) (S.view shelf.new) slot)) }
    ensures exact { IsTrue (S.view shelf.old).tells → IfErr result (λ e. IsGiven e (given_of (S.view shelf.old) (S.view shelf.new) slot)) }
    ensures fits { CountsFit (S.view shelf.new) }
    ensures long_file { IsTrue (S.view shelf.old).tells → IsErrOf result LoadFault.TooLong → 2 ^ 28 < length (left_at (S.view shelf.old) slot) }
{
    let mut bytes = Vec::new(alloc);
    let mut buf = [0u8; PIECE];
    'pieces: loop {
        let count = match shelf.read(slot, &mut buf) {
            Ok(count) => count,
            Err(IoFault::Failed) => return Err(LoadFault::Failed),
            Err(IoFault::Memory) => return Err(LoadFault::Memory),
        };
        if count == 0 {
            return Ok(bytes);
        }
        if count > MAX_FILE - bytes.len() {
            return Err(LoadFault::TooLong);
        }
        bytes.extend_from_slice(&buf[..count])?;
    }
}

/// Writes a whole piece at the end of a slot's file. It takes no memory of its own.
///
/// At an error the first `written` bytes of the piece were appended, and no others; the file is
/// still there. `Failed` comes only where the shelf's count of create and write rose.
pub fn put_all<S: Shelf>(shelf: &mut S, slot: u32, piece: &[u8]) -> Result<(), PutFault>
    requires { IsWriter (S.view shelf.old) slot }
    ensures keeps { WritesOn (S.view shelf.old) (S.view shelf.new) slot }
    ensures ok { IsTrue (S.view shelf.old).tells → OnOk result (file_at (S.view shelf.new) slot ≡ file_at (S.view shelf.old) slot ++ piece.now) }
    ensures err { IsTrue (S.view shelf.old).tells → IfErr result (λ e.
        file_at (S.view shelf.new) slot ≡ file_at (S.view shelf.old) slot ++ take (written_of e) piece.now) }
    ensures there { IsTrue (S.view shelf.old).tells → IsSome ((S.view shelf.old).file ((S.view shelf.old).place slot).name)
        → IsSome ((S.view shelf.new).file ((S.view shelf.old).place slot).name) }
    ensures short { IfErr result (λ e. written_of e < length piece.now) }
    ensures cause { IfErr result (PutCause (Rose (S.view shelf.old).faults_out (S.view shelf.new).faults_out)) }
    ensures quiet { UnlessFailed ((S.view shelf.new).faults_out ≡ (S.view shelf.old).faults_out) result }
    ensures calm { IsTrue (S.view shelf.old).steady → IfErr result (PutCause ⊥) }
    ensures fits { CountsFit (S.view shelf.old) → CountsFit (S.view shelf.new) }
{
    let mut written = 0;
    while written < piece.len() {
        match shelf.write(slot, &piece[written..]) {
            Ok(taken) => written += taken,
            Err(IoFault::Failed) => {
                return Err(PutFault::Failed {
                    written: written as u64,
                });
            }
            Err(IoFault::Memory) => {
                return Err(PutFault::Memory {
                    written: written as u64,
                });
            }
        }
    }
    Ok(())
}
