//! The queue of closed instants.
ghost use Rattle.std.specs.Prelude.{◌≡◌, ◌≤◌, ◌∷◌, ◌++◌, [], List, drop, length, OnOk, OnErr, MatchOption};
ghost use Rattle.capture_core.specs.Stamps.{with_last};

use smallvec::SmallVec;
use std::alloc::{AllocError, Global};
use std::marker::Model;
use wheel_types::Instant;

/// Instants that wait, taken from the front. The places of those taken are used anew once a `take` has found that none waits; the
/// memory itself is kept until the queue is dropped.
#[derive(Drop)]
pub struct Waiting {
    closed: SmallVec<Instant, 4>,
    taken: usize,
}

impl Model for Waiting {
    ghost use Rattle.std.specs.Prelude.{List, drop, length, ◌≤◌};
    ghost use Rattle.wheel_types.specs.declared.instant.Instant.{Instant};

    ghost Value = { List Instant };

    ghost view = { λ w. drop w.taken w.closed.items };

    ghost invariant = { λ w. w.taken ≤ length w.closed.items };
}

impl Waiting {
    pub fn new(alloc: Global) -> Waiting
        ensures { result ≡ [] }
    {
        Waiting {
            closed: SmallVec::new(alloc),
            taken: 0,
        }
    }

    pub fn push(&mut self, instant: Instant) -> Result<(), AllocError>
        ensures ok { OnOk result (self.new ≡ self.old ++ instant ∷ []) }
        ensures err { OnErr result (self.new ≡ self.old) }
    {
        self.closed.push(instant)?;
        Ok(())
    }

    pub fn push_if(&mut self, instant: Option<Instant>) -> Result<(), AllocError>
        ensures ok { OnOk result (self.new ≡ with_last self.old instant) }
        ensures err { OnErr result (self.new ≡ self.old) }
    {
        match instant {
            Some(instant) => self.push(instant),
            None => Ok(()),
        }
    }

    /// The one that waits longest.
    pub fn take(&mut self) -> Option<Instant>
        ensures { MatchOption result ((self.old ≡ []) × (self.new ≡ [])) (λ first. self.old ≡ first ∷ self.new) }
    {
        if self.taken == self.closed.len() {
            self.closed.clear();
            self.taken = 0;
            return None;
        }
        let first = self.closed.as_slice()[self.taken];
        self.taken += 1;
        Some(first)
    }
}
