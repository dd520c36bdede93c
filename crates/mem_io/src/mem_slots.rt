// The slots of a shelf in memory, in the order in which calls gave them.
ghost use Rattle.std.specs.Prelude.{◌≡◌, ◌<◌, ◌≤◌, ◌^◌, IfNone, ◌++◌, ◌∷◌, [], ℕ, List, length, get_or, set, OnOk, IfSome, vec_len, vec_capacity};
ghost use Rattle.mem_io.specs.Slots.{ways_of, files_of, places_of};
ghost use Rattle.mem_io.specs.Named.{IsNamed, SlotsNamed};

use shelf_traits::Way;
use std::alloc::AllocError;

// A slot of the file at this place of the list of files, with the number of bytes read so far.
#[derive(Drop)]
pub struct Slot {
    way: Way,
    file: usize,
    at: usize,
}

#[derive(Drop)]
pub struct Slots {
    list: Vec<Slot>,
}

impl Slots {
    pub fn new(list: Vec<Slot>) -> Self
        ensures { result.list.items ≡ list.items }
    {
        Slots { list }
    }

    // The number of the next slot, where it fits.
    pub fn next(&self) -> Option<u32>
        ensures some { IfSome result (λ n. n ≡ length (ways_of self.now)) }
        ensures none { IfNone result (2 ^ 32 ≤ length (ways_of self.now)) }
    {
        u32::try_from(self.list.len()).ok()
    }

    // The file of a slot.
    pub fn file(&self, slot: u32) -> usize
        requires { slot < length self.now.list.items }
        ensures { result ≡ get_or (files_of self.now) slot 0 }
    {
        self.list[slot as usize].file
    }

    // The place of a slot.
    pub fn place(&self, slot: u32) -> usize
        requires { slot < length self.now.list.items }
        ensures { result ≡ get_or (places_of self.now) slot 0 }
    {
        self.list[slot as usize].at
    }

    // Moves a slot to another place.
    pub fn move_to(&mut self, slot: u32, at: usize)
        requires { slot < length self.old.list.items }
        ensures ways { ways_of self.new ≡ ways_of self.old }
        ensures files { files_of self.new ≡ files_of self.old }
        ensures places { places_of self.new ≡ set (places_of self.old) slot at }
    {
        let slot = &mut self.list[slot as usize];
        slot.at = at;
    }

    // Takes the memory for one slot more.
    pub fn reserve(&mut self) -> Result<(), AllocError>
        ensures ways { ways_of self.new ≡ ways_of self.old }
        ensures files { files_of self.new ≡ files_of self.old }
        ensures places { places_of self.new ≡ places_of self.old }
        ensures room { OnOk result (vec_len self.new.list < vec_capacity self.new.list) }
    {
        self.list.reserve(1)?;
        Ok(())
    }

    // Adds a slot at the start of a file.
    pub fn add(&mut self, way: Way, file: usize)
        requires { vec_len self.old.list < vec_capacity self.old.list }
        ensures ways { ways_of self.new ≡ ways_of self.old ++ way ∷ [] }
        ensures files { files_of self.new ≡ files_of self.old ++ file ∷ [] }
        ensures places { places_of self.new ≡ places_of self.old ++ 0 ∷ [] }
        ensures named { (names : List (List ℕ)) → SlotsNamed names (files_of self.old) → IsNamed names file (get_or names file []) → SlotsNamed names (files_of self.new) }
    {
        self.list.push_reserved(Slot { way, file, at: 0 });
    }
}
