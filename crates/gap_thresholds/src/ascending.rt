//! Fractions that ascend.
ghost use Rattle.std.specs.Prelude.{◌≡◌, ◌≤◌, ◌+◌, ◌*◌, ◌⊎◌, ◌↔◌, [], All, OnOk, OnErr, IsTrue, cond, length};
ghost use Rattle.std.specs.List.{Contains};
ghost use Rattle.std.specs.List.Sorted.{IsPartitionPoint};
ghost use Rattle.gap_thresholds.specs.declared.cut.Cut.{Cut as Fraction};
ghost use Rattle.gap_thresholds.specs.Fractions.{IsLowest, IsBelow, Ascend, count_below, count_equal};

use crate::cut::Cut;
use std::alloc::{AllocError, Global};

/// Fractions in lowest terms, each below the next.
#[derive(Drop)]
pub struct Ascending {
    pub cuts: Vec<Cut>,
    pub ghost lowest: { All IsLowest cuts.items },
    pub ghost ascend: { Ascend cuts.items },
}

impl Ascending {
    /// No fractions.
    pub fn new(alloc: Global) -> Ascending
        ensures { result.cuts.items ≡ [] }
    {
        Ascending {
            cuts: Vec::new(alloc),
        }
    }

    /// The place of the first that is not below a fraction.
    fn first_from(&self, top: u64, bottom: u64) -> usize
        ensures within { result ≤ length self.now.cuts.items }
        ensures parted { IsPartitionPoint (λ c. IsBelow c top bottom) (λ c. top * c.bottom ≤ c.top * bottom) self.now.cuts.items result }
    {
        self.cuts
            .as_slice()
            .partition_point(|cut| cut.is_below(top, bottom))
    }

    /// How many are below a fraction, and whether one is equal to it. It asks a bottom above 0.
    pub fn place(&self, top: u64, bottom: u64) -> (usize, bool)
        requires { 1 ≤ bottom }
        ensures below { result.0 ≡ count_below self.now.cuts.items top bottom }
        ensures equal { count_equal self.now.cuts.items top bottom ≡ cond result.1 1 0 }
        ensures within { result.0 + cond result.1 1 0 ≤ length self.now.cuts.items }
        ensures parted { IsPartitionPoint (λ c. IsBelow c top bottom) (λ c. top * c.bottom ≤ c.top * bottom) self.now.cuts.items result.0 }
    {
        let below = self.first_from(top, bottom);
        let is_equal = match self.cuts.as_slice().get(below) {
            Some(cut) => cut.equals(top, bottom),
            None => false,
        };
        (below, is_equal)
    }

    /// Puts a fraction among them, where none is equal to it.
    ///
    /// # Errors
    /// Want of memory; they are then as before.
    pub fn insert(&mut self, cut: Cut) -> Result<(), AllocError>
        requires { IsLowest cut }
        ensures ok { OnOk result ((c : Fraction) → Contains self.new.cuts.items c ↔ (Contains self.old.cuts.items c ⊎ (c ≡ cut))) }
        ensures length { length self.new.cuts.items ≤ length self.old.cuts.items + 1 }
        ensures err { OnErr result (self.new.cuts.items ≡ self.old.cuts.items) }
    {
        let (below, is_equal) = self.place(cut.top, cut.bottom);
        if !is_equal {
            self.cuts.insert(below, cut)?;
        }
        Ok(())
    }
}
