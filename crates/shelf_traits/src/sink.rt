// What takes bytes, as standard output.
ghost use Rattle.std.specs.Prelude.{◌<◌, ◌≤◌, ◌≡◌, ℕ, Bool, List, length, IfOk, IfErr, OnOk, IsTrue, IsErrOf};
ghost use Rattle.std.specs.declared.option.Option.{Option};
ghost use Rattle.std.specs.Io.KnownBytes.{Keeps, WriteAppends};
ghost use Rattle.shelf_traits.specs.Count.{HasCause, Fits};

use crate::IoFault;

/// What takes bytes, and counts the calls that failed.
pub trait Sink {
    /// How often a call has failed. It never falls, and stops at the greatest u64: a count that
    /// stands there after a call is said to have risen in it. A call that does not fail leaves it.
    ghost faults: { Self → ℕ };

    /// The bytes taken, where they are told.
    ghost taken: { Self → Option (List ℕ) };

    /// How many of the taken bytes wait to be handed on, in a sink that keeps a buffer.
    ghost waiting: { Self → ℕ };

    /// From here on no call fails. No call ends it.
    ghost steady: { Self → Bool };

    /// Takes the first bytes of a piece, and says how many, at least one. After an error it took
    /// none. `Failed` comes only where the count rose.
    fn write(&mut self, piece: &[u8]) -> Result<usize, IoFault>
        requires { 0 < length piece.now }
        ensures count { IfOk result (λ k. (0 < k) × (k ≤ length piece.now)) }
        ensures bytes { WriteAppends (taken self.old) (taken self.new) result piece.now }
        ensures cause { HasCause (faults self.old) (faults self.new) result }
        ensures steady { IsTrue (steady self.old) → IsTrue (steady self.new) }
        ensures calm { IsTrue (steady self.old) → faults self.new ≡ faults self.old }
        ensures no_fault { IsTrue (steady self.old) → ¬ IsErrOf result IoFault.Failed }
        ensures fits { Fits (faults self.new) };

    /// Hands on the taken bytes that wait. A sink without a buffer has none. It takes no memory: each
    /// error is `Failed`, which comes only where the count rose, and some of them may not have gone
    /// out then.
    fn hand_on(&mut self) -> Result<(), IoFault>
        ensures kinds { IfErr result (λ e. e ≡ IoFault.Failed) }
        ensures bytes { Keeps (taken self.old) (taken self.new) }
        ensures all { OnOk result (waiting self.new ≡ 0) }
        ensures cause { HasCause (faults self.old) (faults self.new) result }
        ensures steady { IsTrue (steady self.old) → IsTrue (steady self.new) }
        ensures calm { IsTrue (steady self.old) → faults self.new ≡ faults self.old }
        ensures no_fault { IsTrue (steady self.old) → ¬ IsErrOf result IoFault.Failed }
        ensures fits { Fits (faults self.old) → Fits (faults self.new) };
}
