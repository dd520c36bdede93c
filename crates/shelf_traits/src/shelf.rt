// A set of named files.
ghost use Rattle.std.specs.Prelude.{◌≡◌, ◌<◌, ◌≤◌, ◌++◌, length, take, IfOk, OnErr, IsTrue, IsErrOf};
ghost use Rattle.shelf_traits.specs.Count.{HasCause};
ghost use Rattle.shelf_traits.specs.Shelf.{View, IsReader, IsWriter, Opens, Creates, ReadsOn, WritesOn, Gave, file_at, CountsFit};

use crate::IoFault;

/// Which call gave a slot.
#[derive(Clone, Copy, Debug, PartialEq, Eq)]
pub enum Way {
    /// `open` gave it.
    Reads,
    /// `create` gave it.
    Writes,
}

/// A set of named files, which are read and written through slots.
///
/// Slots are numbered from 0 in the order in which `open` and `create` gave them. The shelf counts
/// the faults of `open` and `read`, and those of `create` and `write`. Neither count ever falls, and
/// each stops at the greatest u64: one that stands there after a call is said to have risen in it.
/// A call that does not answer `Failed` leaves both.
///
/// Some shelves tell contracts the bytes of every file, and for each slot its file's name and its
/// place, the number of bytes read from it. A shelf that tells may also be steady, which no call
/// ends: then its counts rise only at an `open` of a name that is not there.
///
/// `open` and `read` change no file, and each call leaves every file and slot that it is not given
/// as it was.
pub trait Shelf {
    /// What the shelf shows: its counts, its slots, and its files where it tells them.
    ghost view: { Self → View };

    /// A new slot for reading, at the file's start. `Failed` comes only where the count of open and
    /// read rose, as it does where the file is not there.
    fn open(&mut self, name: &str) -> Result<u32, IoFault>
        ensures opens { Opens (view self.old) (view self.new) name.now result }
        ensures fits { CountsFit (view self.new) };

    /// A new slot for writing, over a file that is emptied or made; its place is 0, since no byte is
    /// read from it. `Failed` comes only where the count of create and write rose. After an error no
    /// file was made or changed.
    fn create(&mut self, name: &str) -> Result<u32, IoFault>
        ensures creates { Creates (view self.old) (view self.new) name.now result }
        ensures fits { CountsFit (view self.new) };

    /// Puts the next bytes of a slot's file into the front of `buf`, and says how many: none only at
    /// the file's end. The place moves by as many, and after an error it is as before. `Failed` comes
    /// only where the count of open and read rose.
    fn read(&mut self, slot: u32, buf: &mut [u8]) -> Result<usize, IoFault>
        requires reader { IsReader (view self.old) slot }
        requires room { 0 < length buf.old }
        ensures count { IfOk result (λ k. k ≤ length buf.new) }
        ensures keeps { ReadsOn (view self.old) (view self.new) slot }
        ensures cause { HasCause (view self.old).faults_in (view self.new).faults_in result }
        ensures gave { IsTrue (view self.old).tells → IfOk result (Gave (view self.old) (view self.new) slot buf.new) }
        ensures stays { IsTrue (view self.old).tells → OnErr result ((view self.new).place slot ≡ (view self.old).place slot) }
        ensures calm { IsTrue (view self.old).steady → ¬ IsErrOf result IoFault.Failed }
        ensures fits { CountsFit (view self.new) };

    /// Puts the first bytes of a piece at the end of a slot's file, and says how many, at least one.
    /// After an error nothing was appended. `Failed` comes only where the count of create and write
    /// rose.
    fn write(&mut self, slot: u32, piece: &[u8]) -> Result<usize, IoFault>
        requires writer { IsWriter (view self.old) slot }
        requires some { 0 < length piece.now }
        ensures count { IfOk result (λ k. (0 < k) × (k ≤ length piece.now)) }
        ensures keeps { WritesOn (view self.old) (view self.new) slot }
        ensures cause { HasCause (view self.old).faults_out (view self.new).faults_out result }
        ensures appends { IsTrue (view self.old).tells → IfOk result (λ k.
            file_at (view self.new) slot ≡ file_at (view self.old) slot ++ take k piece.now) }
        ensures unchanged { IsTrue (view self.old).tells → OnErr result ((view self.new).file ≡ (view self.old).file) }
        ensures calm { IsTrue (view self.old).steady → ¬ IsErrOf result IoFault.Failed }
        ensures fits { CountsFit (view self.new) };
}
