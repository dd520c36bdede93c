// A shelf in memory.
ghost use Rattle.std.specs.Prelude.{◌≡◌, ◌<◌, ◌≤◌, ◌++◌, [], ℕ, List, length, take, min, IfOk, OnErr, IsErrOf, IsTrue, MatchOption, Some, None};
ghost use Rattle.mem_io.specs.Named.{all_differ, file_in, SlotsNamed, names_of, contents_of};
ghost use Rattle.mem_io.specs.Slots.{files_of};
ghost use Rattle.mem_io.specs.Calls.{is_calm, IsCall};
ghost use Rattle.shelf_traits.specs.Count.{Fits, HasCause};
ghost use Rattle.shelf_traits.specs.Shelf.{IsReader, IsWriter, Opens, Creates, ReadsOn, WritesOn, Gave, CountsFit, file_at, left_at};

use crate::calls::Calls;
use crate::mem_files::Files;
use crate::mem_slots::Slots;
use shelf_traits::{IoFault, Shelf, Way};
use std::alloc::Global;

/// A shelf in memory, which tells its files to contracts.
///
/// Its calls of open, create, read and write are numbered together, from 0, and a call fails where
/// its number is in a list (the number stops at the greatest u64). A read that answers `Ok` gives
/// the least of `piece`, the buffer's length and what is left of the file. A write that does not
/// fail takes the whole piece.
#[derive(Drop)]
pub struct MemShelf {
    files: Files,
    slots: Slots,
    piece: usize,
    calls: Calls,
    faults_in: u64,
    faults_out: u64,
    ghost some: { 0 < piece },
    ghost fits_in: { Fits faults_in },
    ghost fits_out: { Fits faults_out },
    ghost named: { SlotsNamed (names_of files.list.items) (files_of slots) },
}

impl MemShelf {
    ghost use Rattle.mem_io.specs.MemShelf.{mem_view, mem_calls, mem_piece};

    /// A shelf of these files, by name and bytes. A read gives at most `piece` bytes, and the calls
    /// whose numbers are in `fails` fail. It is steady where no number of `fails` is that of the
    /// next call or a later one.
    pub fn new(alloc: Global, files: Vec<(String, Vec<u8>)>, piece: usize, fails: Vec<u64>) -> Self
        requires some { 0 < piece }
        requires names { IsTrue (all_differ (names_of files.items)) }
        ensures files { (mem_view result).file ≡ file_in (names_of files.items) (contents_of files.items) }
        ensures tells { IsTrue (mem_view result).tells }
        ensures steady { (mem_view result).steady ≡ is_calm fails.items 0 }
        ensures always { fails.items ≡ [] → IsTrue (mem_view result).steady }
        ensures none { (mem_view result).ways ≡ [] }
        ensures counts { ((mem_view result).faults_in ≡ 0) × ((mem_view result).faults_out ≡ 0) }
        ensures next { (mem_calls result).next ≡ 0 }
        ensures fails { (mem_calls result).fails.items ≡ fails.items }
        ensures piece { mem_piece result ≡ piece }
    {
        MemShelf {
            files: Files::new(alloc, files),
            slots: Slots::new(Vec::new(alloc)),
            piece,
            calls: Calls::new(fails),
            faults_in: 0,
            faults_out: 0,
        }
    }

    /// The bytes of the file of this name, or `None` exactly where no file has the name.
    pub fn file(&self, name: &str) -> Option<&[u8]>
        ensures { MatchOption result ((mem_view self.now).file name.now ≡ None) (λ bytes. (mem_view self.now).file name.now ≡ Some bytes.now) }
    {
        match self.files.find(name) {
            Some(file) => Some(self.files.bytes(file)),
            None => None,
        }
    }
}

impl Shelf for MemShelf {
    ghost use Rattle.mem_io.specs.MemShelf.{mem_view, mem_calls, mem_piece};

    ghost view = { mem_view };

    fn open(&mut self, name: &str) -> Result<u32, IoFault>
        ensures opens { Opens (mem_view self.old) (mem_view self.new) name.now result }
        ensures fits { CountsFit (mem_view self.new) }
        ensures call { IsCall (mem_calls self.old) (mem_calls self.new) (IsErrOf result IoFault.Failed) ((mem_view self.old).file name.now ≡ None) }
        ensures absent { (mem_view self.old).file name.now ≡ None → IsErrOf result IoFault.Failed }
        ensures piece { mem_piece self.new ≡ mem_piece self.old }
    {
        if self.calls.fails_next() {
            self.faults_in = self.faults_in.saturating_add(1);
            return Err(IoFault::Failed);
        }
        let Some(file) = self.files.find(name) else {
            self.faults_in = self.faults_in.saturating_add(1);
            return Err(IoFault::Failed);
        };
        let Some(slot) = self.slots.next() else {
            return Err(IoFault::Memory);
        };
        self.slots.reserve()?;
        self.slots.add(Way::Reads, file);
        Ok(slot)
    }

    fn create(&mut self, name: &str) -> Result<u32, IoFault>
        ensures creates { Creates (mem_view self.old) (mem_view self.new) name.now result }
        ensures fits { CountsFit (mem_view self.new) }
        ensures call { IsCall (mem_calls self.old) (mem_calls self.new) (IsErrOf result IoFault.Failed) ⊥ }
        ensures piece { mem_piece self.new ≡ mem_piece self.old }
    {
        if self.calls.fails_next() {
            self.faults_out = self.faults_out.saturating_add(1);
            return Err(IoFault::Failed);
        }
        let Some(slot) = self.slots.next() else {
            return Err(IoFault::Memory);
        };
        self.slots.reserve()?;
        let file = self.files.make(name)?;
        self.slots.add(Way::Writes, file);
        Ok(slot)
    }

    fn read(&mut self, slot: u32, buf: &mut [u8]) -> Result<usize, IoFault>
        requires reader { IsReader (mem_view self.old) slot }
        requires room { 0 < length buf.old }
        ensures count { IfOk result (λ k. k ≤ length buf.new) }
        ensures keeps { ReadsOn (mem_view self.old) (mem_view self.new) slot }
        ensures cause { HasCause (mem_view self.old).faults_in (mem_view self.new).faults_in result }
        ensures gave { IsTrue (mem_view self.old).tells → IfOk result (Gave (mem_view self.old) (mem_view self.new) slot buf.new) }
        ensures stays { IsTrue (mem_view self.old).tells → OnErr result ((mem_view self.new).place slot ≡ (mem_view self.old).place slot) }
        ensures calm { IsTrue (mem_view self.old).steady → ¬ IsErrOf result IoFault.Failed }
        ensures fits { CountsFit (mem_view self.new) }
        ensures call { IsCall (mem_calls self.old) (mem_calls self.new) (IsErrOf result IoFault.Failed) ⊥ }
        ensures least { IfOk result (λ k. k ≡ min (min (mem_piece self.old) (length buf.old)) (length (left_at (mem_view self.old) slot))) }
        ensures piece { mem_piece self.new ≡ mem_piece self.old }
    {
        if self.calls.fails_next() {
            self.faults_in = self.faults_in.saturating_add(1);
            return Err(IoFault::Failed);
        }
        let file = self.slots.file(slot);
        let at = self.slots.place(slot);
        let count = self.files.give(file, at, self.piece, buf);
        self.slots.move_to(slot, at + count);
        Ok(count)
    }

    fn write(&mut self, slot: u32, piece: &[u8]) -> Result<usize, IoFault>
        requires writer { IsWriter (mem_view self.old) slot }
        requires some { 0 < length piece.now }
        ensures count { IfOk result (λ k. (0 < k) × (k ≤ length piece.now)) }
        ensures keeps { WritesOn (mem_view self.old) (mem_view self.new) slot }
        ensures cause { HasCause (mem_view self.old).faults_out (mem_view self.new).faults_out result }
        ensures appends { IsTrue (mem_view self.old).tells → IfOk result (λ k.
            file_at (mem_view self.new) slot ≡ file_at (mem_view self.old) slot ++ take k piece.now) }
        ensures unchanged { IsTrue (mem_view self.old).tells → OnErr result ((mem_view self.new).file ≡ (mem_view self.old).file) }
        ensures calm { IsTrue (mem_view self.old).steady → ¬ IsErrOf result IoFault.Failed }
        ensures fits { CountsFit (mem_view self.new) }
        ensures call { IsCall (mem_calls self.old) (mem_calls self.new) (IsErrOf result IoFault.Failed) ⊥ }
        ensures whole { IfOk result (λ k. k ≡ length piece.now) }
        ensures piece { mem_piece self.new ≡ mem_piece self.old }
    {
        if self.calls.fails_next() {
            self.faults_out = self.faults_out.saturating_add(1);
            return Err(IoFault::Failed);
        }
        let file = self.slots.file(slot);
        self.files.append(file, piece)?;
        Ok(piece.len())
    }
}
