// Calls that are numbered from 0, of which those whose number is in a list fail.
ghost use Rattle.std.specs.Prelude.{◌≡◌, ◌+◌, ◌-◌, ◌^◌, min, false, IsTrue};
ghost use Rattle.mem_io.specs.Calls.{is_among, is_calm};

#[derive(Drop)]
pub struct Calls {
    // the number of the next call, which stops at the greatest u64
    next: u64,
    fails: Vec<u64>,
}

impl Calls {
    pub fn new(fails: Vec<u64>) -> Self
        ensures next { result.next ≡ 0 }
        ensures fails { result.fails.items ≡ fails.items }
    {
        Calls { next: 0, fails }
    }

    // Counts a call, and says whether it fails.
    pub fn fails_next(&mut self) -> bool
        ensures value { result ≡ is_among self.old.next self.old.fails.items }
        ensures fails { self.new.fails.items ≡ self.old.fails.items }
        ensures next { self.new.next ≡ min (self.old.next + 1) (2 ^ 64 - 1) }
        ensures calm { IsTrue (is_calm self.old.fails.items self.old.next) → result ≡ false }
        ensures stays { IsTrue (is_calm self.old.fails.items self.old.next) → IsTrue (is_calm self.new.fails.items self.new.next) }
    {
        let call = self.next;
        self.next = call.saturating_add(1);
        self.fails.contains(&call)
    }
}
