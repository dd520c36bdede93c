//! Files copied over shelves in memory and over the system's.
ghost use Rattle.std.specs.Prelude.{◌≡◌, ◌<◌, IfOk, string_bytes};

use shelf_io::{MemShelf, PutFault, Shelf, put_all, read_all};
use std::alloc::{AllocError, Global};

/// A file for a shelf.
fn file_of(alloc: Global, name: &str, bytes: &[u8]) -> Result<(String, Vec<u8>), AllocError>
    ensures { IfOk result (λ file. string_bytes file.0 ≡ name.now) }
{
    Ok((String::from_str(alloc, name)?, bytes.to_vec(alloc)?))
}

/// A shelf of the files `in` and `old`, which gives so many bytes at a time.
fn shelf_of(alloc: Global, piece: usize, fails: Vec<u64>) -> Result<MemShelf, AllocError>
    requires { 0 < piece }
{
    let mut files = Vec::new(alloc);
    files.push(file_of(alloc, "in", b"abc")?)?;
    files.push(file_of(alloc, "old", b"xyz")?)?;
    Ok(MemShelf::new(alloc, files, piece, fails))
}

/// Copies a file to another, and says at which step it failed, or `done`.
fn copy<S: Shelf>(alloc: Global, shelf: &mut S, from: &str, to: &str) -> &'static str {
    let Ok(source) = shelf.open(from) else {
        return "open";
    };
    let Ok(bytes) = read_all(alloc, shelf, source) else {
        return "read";
    };
    let Ok(target) = shelf.create(to) else {
        return "create";
    };
    match put_all(shelf, target, &bytes) {
        Ok(()) => "done",
        Err(PutFault::Failed { written: 0 }) => "write",
        Err(_) => "other",
    }
}

/// What a file of a shelf holds.
fn held(alloc: Global, shelf: &MemShelf, name: &str) -> Result<String, AllocError> {
    match shelf.file(name) {
        Some(bytes) => String::from_utf8_lossy(alloc, bytes),
        None => String::from_str(alloc, "none"),
    }
}

/// What is told of copies over a shelf that gives so many bytes at a time.
pub fn copies(alloc: Global, piece: &[u64]) -> Result<String, AllocError> {
    let piece = match piece {
        [piece @ 1..=9] => *piece as usize,
        _ => return String::from_str(alloc, "no piece"),
    };
    let mut shelf = shelf_of(alloc, piece, Vec::new(alloc))?;
    let before = held(alloc, &shelf, "new")?;
    let first = copy(alloc, &mut shelf, "in", "new");
    let second = copy(alloc, &mut shelf, "new", "old");
    let third = copy(alloc, &mut shelf, "none", "old");
    let (from, new) = (held(alloc, &shelf, "in")?, held(alloc, &shelf, "new")?);
    let (old, none) = (held(alloc, &shelf, "old")?, held(alloc, &shelf, "none")?);
    format!(in alloc; "{before}; {first} {second} {third}; {from} {new} {old} {none}")
}

/// What is told of two copies over a shelf whose calls of these numbers fail.
pub fn copies_where(alloc: Global, fails: Vec<u64>) -> Result<String, AllocError> {
    let mut shelf = shelf_of(alloc, 2, fails)?;
    let first = copy(alloc, &mut shelf, "in", "old");
    let old = held(alloc, &shelf, "old")?;
    let second = copy(alloc, &mut shelf, "in", "old");
    format!(in alloc; "{first}; {old}; {second}")
}

/// Writes a file, and says whether it went out whole.
fn fill<S: Shelf>(shelf: &mut S, name: &str, bytes: &[u8]) -> bool {
    let Ok(slot) = shelf.create(name) else {
        return false;
    };
    put_all(shelf, slot, bytes).is_ok()
}

/// What a file holds, or the step at which reading failed.
fn loaded<S: Shelf>(alloc: Global, shelf: &mut S, name: &str) -> Result<String, AllocError> {
    let Ok(slot) = shelf.open(name) else {
        return String::from_str(alloc, "open");
    };
    match read_all(alloc, shelf, slot) {
        Ok(bytes) => String::from_utf8_lossy(alloc, &bytes),
        Err(_) => String::from_str(alloc, "read"),
    }
}

/// What is told of copies over a shelf whose folder has no folder `none`.
pub fn over_the_system<S: Shelf>(alloc: Global, shelf: &mut S) -> Result<String, AllocError> {
    let whole = fill(shelf, "from", b"kept");
    let first = copy(alloc, shelf, "from", "to");
    let text = loaded(alloc, shelf, "to")?;
    let second = copy(alloc, shelf, "none/x", "to");
    let third = copy(alloc, shelf, "to", "none/x");
    format!(in alloc; "{whole}; {first}; {text}; {second} {third}")
}
