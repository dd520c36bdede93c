//! Runs that make an image's file, over a shelf of which a write takes at most 1,000 bytes.
ghost use Rattle.std.specs.Prelude.{◌<◌};
ghost use Rattle.mem_io.specs.MemShelf.{mem_view};

use crate::memory::{bytes_of, ending, fails_of, file_of, no_taps, words_of};
use shelf_io::{IoFault, MemShelf, MemSink, Shelf};
use std::alloc::{AllocError, Global};
use std::fs;
use wheelsync::run;

/// How many bytes a write takes at most.
const MOST: usize = 1000;

/// A shelf in memory of which a write takes at most so many bytes.
#[derive(Drop)]
struct Sipping {
    shelf: MemShelf,
    most: usize,
    ghost some: { 0 < most },
}

impl Shelf for Sipping {
    ghost view = { λ s. mem_view s.shelf };

    fn open(&mut self, name: &str) -> Result<u32, IoFault> {
        self.shelf.open(name)
    }

    fn create(&mut self, name: &str) -> Result<u32, IoFault> {
        self.shelf.create(name)
    }

    fn read(&mut self, slot: u32, buf: &mut [u8]) -> Result<usize, IoFault> {
        self.shelf.read(slot, buf)
    }

    fn write(&mut self, slot: u32, piece: &[u8]) -> Result<usize, IoFault> {
        let most = self.most.min(piece.len());
        self.shelf.write(slot, &piece[..most])
    }
}

/// A shelf with the file `wheel`, and the file `image` where it is there before.
fn shelf_of(
    alloc: Global,
    wheel: &[u8],
    before: Option<&[u8]>,
    fails: Vec<u64>,
) -> Result<Sipping, AllocError> {
    let mut files = Vec::new(alloc);
    files.push(file_of(alloc, "wheel", wheel)?)?;
    let shelf = match before {
        None => MemShelf::new(alloc, files, 1 << 16, fails),
        Some(bytes) => {
            files.push(file_of(alloc, "image", bytes)?)?;
            MemShelf::new(alloc, files, 1 << 16, fails)
        }
    };
    Ok(Sipping { shelf, most: MOST })
}

/// What a file has: what it had before, the wanted bytes, or a front of them.
fn told_of_file(
    alloc: Global,
    file: Option<&[u8]>,
    before: Option<&[u8]>,
    wanted: &[u8],
) -> Result<String, AllocError> {
    let Some(bytes) = file else {
        return String::from_str(alloc, "no file");
    };
    if before == Some(bytes) {
        String::from_str(alloc, "as before")
    } else if bytes == wanted {
        String::from_str(alloc, "the image")
    } else if wanted.starts_with(bytes) {
        format!(in alloc; "{} bytes of it", bytes.len())
    } else {
        String::from_str(alloc, "other bytes")
    }
}

/// What is told of words over a wheel, where a call fails: what the file `image` has then, beside what it had before (`-` where it was not
/// there) and the image of the file beside the program; and what out got.
pub fn told_of_image(
    rt: &HostRuntime,
    words: &str,
    failing: &str,
    files: [&str; 3],
) -> Result<Option<String>, AllocError> {
    let alloc = rt.alloc();
    let [wheel, before, wanted] = files;
    let Ok(wanted) = fs::read(rt, wanted) else {
        return Ok(None);
    };
    let wheel = bytes_of(alloc, wheel)?;
    let old = bytes_of(alloc, before)?;
    let before = if before == "-" {
        None
    } else {
        Some(old.as_slice())
    };
    let mut shelf = shelf_of(alloc, &wheel, before, fails_of(alloc, failing, "shelf")?)?;
    let mut out = MemSink::new(alloc, fails_of(alloc, failing, "out")?);
    let mut notes = MemSink::new(alloc, fails_of(alloc, failing, "notes")?);
    let words = words_of(alloc, words)?;
    let status = run(
        alloc,
        &words,
        &mut shelf,
        &mut out,
        &mut notes,
        no_taps(alloc),
    );
    let file = told_of_file(alloc, shelf.shelf.file("image"), before, &wanted)?;
    let kept = if shelf.shelf.file("wheel") == Some(wheel.as_slice()) {
        ""
    } else {
        ", another wheel"
    };
    let text = String::from_utf8_lossy(alloc, out.bytes())?;
    let end = ending(alloc, status, &notes)?;
    Ok(Some(format!(in alloc; "{file}{kept}{text} / {end}")?))
}
