// The files of a shelf in memory. Of two files of one name the first counts.
ghost use Rattle.std.specs.Prelude.{◌≡◌, ◌≢◌, ◌<◌, ◌+◌, ◌^◌, ◌++◌, ◌∷◌, [], ℕ, List, length, take, drop, min, get_or, set, IfOk, IfSome, IfNone, Some, None, OnErr, OnOk};
ghost use Rattle.mem_io.specs.Named.{KeepsNames, IsAbsent, file_in, IsNamed, SlotsNamed, names_of, contents_of};

use std::alloc::{AllocError, Global};

#[derive(Drop)]
pub struct Files {
    alloc: Global,
    list: Vec<(String, Vec<u8>)>,
}

// Puts the bytes from a place on into the front of buf, at most so many.
fn give(bytes: &[u8], at: usize, piece: usize, buf: &mut [u8]) -> usize
    requires some { 0 < piece }
    requires room { 0 < length buf.old }
    ensures count { result ≡ min (min piece (length buf.old)) (length (drop at bytes.now)) }
    ensures given { drop at bytes.now ≡ take result buf.new ++ drop (at + result) bytes.now }
    ensures fits { at + result < 2 ^ 64 }
    ensures end { result ≡ 0 → drop at bytes.now ≡ [] }
{
    if at >= bytes.len() {
        return 0;
    }
    let left = &bytes[at..];
    let count = piece.min(buf.len()).min(left.len());
    buf[..count].copy_from_slice(&left[..count]);
    count
}

impl Files {
    pub fn new(alloc: Global, list: Vec<(String, Vec<u8>)>) -> Self
        ensures { result.list.items ≡ list.items }
    {
        Files { alloc, list }
    }

    // The place of the first file of this name.
    pub fn find(&self, name: &str) -> Option<usize>
        ensures found { IfSome result (λ i. IsNamed (names_of self.now.list.items) i name.now) }
        ensures none { IfNone result (file_in (names_of self.now.list.items) (contents_of self.now.list.items) name.now ≡ None) }
        ensures absent { IfNone result (IsAbsent (names_of self.now.list.items) name.now) }
    {
        for i in 0..self.list.len() {
            if self.list[i].0.as_str() == name {
                return Some(i);
            }
        }
        None
    }

    // The bytes of a file.
    pub fn bytes(&self, file: usize) -> &[u8]
        requires { file < length self.now.list.items }
        ensures { result.now ≡ get_or (contents_of self.now.list.items) file [] }
    {
        &self.list[file].1
    }

    // Puts a file's bytes from a place on into the front of buf, at most so many.
    pub fn give(&self, file: usize, at: usize, piece: usize, buf: &mut [u8]) -> usize
        requires file { file < length self.now.list.items }
        requires some { 0 < piece }
        requires room { 0 < length buf.old }
        ensures count { result ≡ min (min piece (length buf.old)) (length (drop at (get_or (contents_of self.now.list.items) file []))) }
        ensures given { drop at (get_or (contents_of self.now.list.items) file []) ≡ take result buf.new ++ drop (at + result) (get_or (contents_of self.now.list.items) file []) }
        ensures fits { at + result < 2 ^ 64 }
        ensures end { result ≡ 0 → drop at (get_or (contents_of self.now.list.items) file []) ≡ [] }
    {
        give(self.bytes(file), at, piece, buf)
    }

    // Appends to a file.
    pub fn append(&mut self, file: usize, piece: &[u8]) -> Result<(), AllocError>
        requires { file < length self.old.list.items }
        ensures names { names_of self.new.list.items ≡ names_of self.old.list.items }
        ensures ok { OnOk result (contents_of self.new.list.items ≡ set (contents_of self.old.list.items) file (get_or (contents_of self.old.list.items) file [] ++ piece.now)) }
        ensures err { OnErr result (contents_of self.new.list.items ≡ contents_of self.old.list.items) }
    {
        let (_, bytes) = &mut self.list[file];
        bytes.extend_from_slice(piece)?;
        Ok(())
    }

    // Empties a file.
    fn empty(&mut self, file: usize)
        requires { file < length self.old.list.items }
        ensures names { names_of self.new.list.items ≡ names_of self.old.list.items }
        ensures contents { contents_of self.new.list.items ≡ set (contents_of self.old.list.items) file [] }
    {
        let (_, bytes) = &mut self.list[file];
        bytes.clear();
    }

    // Adds an empty file at the end.
    fn add(&mut self, name: &str) -> Result<(), AllocError>
        ensures names { OnOk result (names_of self.new.list.items ≡ names_of self.old.list.items ++ name.now ∷ []) }
        ensures contents { OnOk result (contents_of self.new.list.items ≡ contents_of self.old.list.items ++ [] ∷ []) }
        ensures err { OnErr result (self.new.list.items ≡ self.old.list.items) }
    {
        let name = String::from_str(self.alloc, name)?;
        self.list.push((name, Vec::new(self.alloc)))?;
        Ok(())
    }

    // Empties the file of this name, or makes it, and gives its place.
    pub fn make(&mut self, name: &str) -> Result<usize, AllocError>
        ensures named { IfOk result (λ i. IsNamed (names_of self.new.list.items) i name.now) }
        ensures keeps { KeepsNames (names_of self.old.list.items) (names_of self.new.list.items) }
        ensures slots { (files : List ℕ) → SlotsNamed (names_of self.old.list.items) files → SlotsNamed (names_of self.new.list.items) files }
        ensures emptied { IfOk result (λ i. file_in (names_of self.new.list.items) (contents_of self.new.list.items) name.now ≡ Some []) }
        ensures others { (n : List ℕ) → n ≢ name.now → file_in (names_of self.new.list.items) (contents_of self.new.list.items) n ≡ file_in (names_of self.old.list.items) (contents_of self.old.list.items) n }
        ensures names { OnErr result (names_of self.new.list.items ≡ names_of self.old.list.items) }
        ensures contents { OnErr result (contents_of self.new.list.items ≡ contents_of self.old.list.items) }
    {
        if let Some(file) = self.find(name) {
            self.empty(file);
            return Ok(file);
        }
        let file = self.list.len();
        self.add(name)?;
        Ok(file)
    }
}
