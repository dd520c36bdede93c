// The files of the system as a shelf.
ghost use Rattle.std.specs.Prelude.{false, None, ◌≡◌, [], map};
ghost use Rattle.shelf_traits.specs.Count.{Fits};

use crate::{IoFault, Shelf, Way};
use std::alloc::Global;
use std::fs;
use std::fs::Files;
use std::io::{Read, Write};

#[derive(Drop)]
struct Slot<F: Drop> {
    way: Way,
    file: F,
}

// Files that hold nothing. Each takes the first free number of the system's, so that three of them take those of the
// standard streams that were closed when the program began.
#[derive(Drop)]
struct Fillers<F: Drop> {
    first: Option<F>,
    second: Option<F>,
    third: Option<F>,
}

// A file that holds nothing, where the system has it.
fn filler<R: Files>(files: &R) -> Option<R::File> {
    match fs::open(files, "/dev/null") {
        Ok(file) => Some(file),
        Err(_) => None,
    }
}

/// The files of the system as a shelf, by their paths.
///
/// A standard stream that was closed when the program began stays closed to the shelf's files: none of them gets its
/// number, so nothing that is meant for the stream goes into a file, and no file is read in the stream's place.
///
/// It tells its counts and which call gave each slot, and no bytes. The count of the call's own
/// kind rises at each fault of the system, and at a write that takes nothing. `Memory` comes before
/// the system is asked for the file.
#[derive(Drop)]
pub struct RealShelf<'a, R: Files> {
    files: &'a R,
    fillers: Fillers<R::File>,
    slots: Vec<Slot<R::File>>,
    faults_in: u64,
    faults_out: u64,
    ghost fits_in: { Fits faults_in },
    ghost fits_out: { Fits faults_out },
}

impl<'a, R: Files> RealShelf<'a, R> {
    /// A shelf over these files, with no slot yet and no faults.
    pub fn new(alloc: Global, files: &'a R) -> Self
        ensures faults_in { result.faults_in ≡ 0 }
        ensures faults_out { result.faults_out ≡ 0 }
        ensures slots { result.slots.items ≡ [] }
    {
        let fillers = Fillers {
            first: filler(files),
            second: filler(files),
            third: filler(files),
        };
        RealShelf {
            files,
            fillers,
            slots: Vec::new(alloc),
            faults_in: 0,
            faults_out: 0,
        }
    }
}

impl<R: Files> Shelf for RealShelf<'_, R> {
    ghost view = { λ s. record {
      faults_in = s.faults_in;
      faults_out = s.faults_out;
      ways = map (λ x. x.way) s.slots.items;
      tells = false;
      steady = false;
      file = λ _. None;
      place = λ _. record { name = []; at = 0 };
    } };

    fn open(&mut self, name: &str) -> Result<u32, IoFault> {
        let Ok(slot) = u32::try_from(self.slots.len()) else {
            return Err(IoFault::Memory);
        };
        self.slots.reserve(1)?;
        let Ok(file) = fs::open(self.files, name) else {
            self.faults_in = self.faults_in.saturating_add(1);
            return Err(IoFault::Failed);
        };
        self.slots.push_reserved(Slot {
            way: Way::Reads,
            file,
        });
        Ok(slot)
    }

    fn create(&mut self, name: &str) -> Result<u32, IoFault> {
        let Ok(slot) = u32::try_from(self.slots.len()) else {
            return Err(IoFault::Memory);
        };
        self.slots.reserve(1)?;
        let Ok(file) = fs::create(self.files, name) else {
            self.faults_out = self.faults_out.saturating_add(1);
            return Err(IoFault::Failed);
        };
        self.slots.push_reserved(Slot {
            way: Way::Writes,
            file,
        });
        Ok(slot)
    }

    fn read(&mut self, slot: u32, buf: &mut [u8]) -> Result<usize, IoFault> {
        let file = &mut self.slots[slot as usize].file;
        match file.read(buf) {
            Ok(count) => Ok(count),
            Err(_) => {
                self.faults_in = self.faults_in.saturating_add(1);
                Err(IoFault::Failed)
            }
        }
    }

    fn write(&mut self, slot: u32, piece: &[u8]) -> Result<usize, IoFault> {
        let file = &mut self.slots[slot as usize].file;
        match file.write(piece) {
            Ok(taken) if taken > 0 => Ok(taken),
            _ => {
                self.faults_out = self.faults_out.saturating_add(1);
                Err(IoFault::Failed)
            }
        }
    }
}
