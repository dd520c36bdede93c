//! The cuts of a wheel, and the classes between them.
ghost use Rattle.std.specs.Prelude.{◌≡◌, ◌≤◌, ◌<◌, ◌*◌, ◌↔◌, ℕ, IsTrue, IfOk, All, length, slice_index_or};
ghost use Rattle.wheel_types.specs.Motions.{KeepsSpeed, KeepsRatio};
ghost use Rattle.edge_angles.specs.EdgeTables.{AreEdgesOf};
ghost use Rattle.gap_thresholds.specs.declared.cut.Cut.{Cut as Fraction};
ghost use Rattle.gap_thresholds.specs.Fractions.{IsSmall};
ghost use Rattle.gap_thresholds.specs.Gaps.{IsGap, AreGaps, AreAllCuts};

use crate::ascending::Ascending;
use crate::cut::Cut;
use crate::gaps::{ratio_cuts, time_cuts};
use edge_angles::Edges;
use motion_bounds::{greatest_time, least_time};
use std::alloc::Global;
use wheel_types::{Memory, Wheel};

/// The cuts of a wheel's limits on speed and on the ratio of two speeds, with the wheel.
///
/// The time class of a gap is the number of time cuts that are at most its time, in femtoseconds. The ratio class of two gaps that
/// follow each other is twice the number of ratio cuts below the second's time by the first's, and 1 more where that is a cut.
#[derive(Drop)]
pub struct Cuts {
    wheel: Wheel,
    times: Ascending,
    ratios: Ascending,
    pub ghost few_times: { length times.cuts.items ≤ 8192 },
    pub ghost few_ratios: { length ratios.cuts.items ≤ 8192 },
    pub ghost small: { All IsSmall ratios.cuts.items },
    pub ghost all: { ∥ AreAllCuts wheel.parts times.cuts.items ratios.cuts.items ∥₁ },
}

/// Whether a class is from one to another.
fn is_from(class: u32, first: u32, last: u32) -> bool
    ensures { IsTrue result ↔ ((first ≤ class) × (class ≤ last)) }
{
    first <= class && class <= last
}

impl Cuts {
    ghost use Rattle.gap_thresholds.specs.Classes.{wheel_of, times_of, ratios_of, time_class_of, ratio_class_of, AreCutsOf};

    /// The cuts of a wheel. It asks the wheel's edges.
    ///
    /// # Errors
    /// Want of memory.
    pub fn build(alloc: Global, wheel: &Wheel, edges: &Edges) -> Result<Cuts, Memory>
        requires { AreEdgesOf wheel.now.parts edges.now }
        ensures { IfOk result (λ cuts. AreCutsOf wheel.now.parts cuts) }
    {
        Ok(Cuts {
            wheel: wheel.copied(alloc)?,
            times: time_cuts(alloc, wheel, edges)?,
            ratios: ratio_cuts(alloc, wheel, edges)?,
        })
    }

    /// How many time cuts there are.
    pub fn time_count(&self) -> u32
        ensures { result ≡ length (times_of self.now) }
    {
        self.times.cuts.len() as u32
    }

    /// How many ratio cuts there are.
    pub fn ratio_count(&self) -> u32
        ensures { result ≡ length (ratios_of self.now) }
    {
        self.ratios.cuts.len() as u32
    }

    /// Time cut `i`, in femtoseconds; they ascend. It asks `i` below their number.
    pub fn time_cut(&self, i: u32) -> u64
        requires { i < length (times_of self.now) }
        ensures { (c : Fraction) → result ≡ (slice_index_or (times_of self.now) i c).top }
    {
        self.times.cuts[i as usize].top
    }

    /// Ratio cut `i`, as top and bottom in lowest terms; they ascend. It asks `i` below their number.
    pub fn ratio_cut(&self, i: u32) -> (u32, u32)
        requires { i < length (ratios_of self.now) }
        ensures top { (c : Fraction) → result.0 ≡ (slice_index_or (ratios_of self.now) i c).top }
        ensures bottom { (c : Fraction) → result.1 ≡ (slice_index_or (ratios_of self.now) i c).bottom }
    {
        let cut = self.ratios.cuts[i as usize];
        (cut.top as u32, cut.bottom as u32)
    }

    /// The class of a gap's time.
    pub fn time_class(&self, t: u64) -> u32
        ensures { result ≡ time_class_of (times_of self.now) t }
    {
        let (below, is_cut) = self.times.place(t, 1);
        below as u32 + u32::from(is_cut)
    }

    /// The class of the ratio of two gaps' times, the second after the first. It asks at least a femtosecond for the first.
    pub fn ratio_class(&self, t0: u64, t1: u64) -> u32
        requires { 1 ≤ t0 }
        ensures { result ≡ ratio_class_of (ratios_of self.now) t0 t1 }
    {
        self.class_of(Cut {
            top: t1,
            bottom: t0,
        })
    }

    /// Whether a gap of so many slots may take the times of a class. It asks a class of the cuts, and a gap of the wheel.
    pub fn time_keeps(&self, class: u32, slots: u32) -> bool
        requires class { class ≤ length (times_of self.now) }
        requires gap { IsGap (wheel_of self.now) slots }
        ensures { AreCutsOf (wheel_of self.now) self.now → (t : ℕ) → 1 ≤ t → time_class_of (times_of self.now) t ≡ class → IsTrue result ↔ KeepsSpeed (wheel_of self.now) slots t }
    {
        let first = self.time_class(least_time(&self.wheel, slots));
        let last = self.time_class(greatest_time(&self.wheel, slots));
        is_from(class, first, last)
    }

    /// Whether two gaps of so many slots, the second after the first, may take times whose ratio is of a class. It asks a class of
    /// the cuts, and two gaps of the wheel that follow each other.
    pub fn ratio_keeps(&self, class: u32, s0: u32, s1: u32) -> bool
        requires class { class ≤ 2 * length (ratios_of self.now) }
        requires gaps { AreGaps (wheel_of self.now) s0 s1 }
        ensures { AreCutsOf (wheel_of self.now) self.now → (t0 t1 : ℕ) → 1 ≤ t0 → 1 ≤ t1 → ratio_class_of (ratios_of self.now) t0 t1 ≡ class → IsTrue result ↔ KeepsRatio (wheel_of self.now) s0 t0 s1 t1 }
    {
        let parts = self.wheel.parts();
        let (s0, s1) = (u64::from(s0), u64::from(s1));
        let (rn, rd) = (u64::from(parts.rn), u64::from(parts.rd));
        let first = self.class_of(Cut::lowest(s1 * rd, s0 * rn));
        let last = self.class_of(Cut::lowest(s1 * rn, s0 * rd));
        is_from(class, first, last)
    }

    /// The class of a ratio. It asks a bottom above 0.
    fn class_of(&self, ratio: Cut) -> u32
        requires { 1 ≤ ratio.bottom }
        ensures { result ≡ ratio_class_of (ratios_of self.now) ratio.bottom ratio.top }
    {
        let (below, is_cut) = self.ratios.place(ratio.top, ratio.bottom);
        2 * below as u32 + u32::from(is_cut)
    }
}
