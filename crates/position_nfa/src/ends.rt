//! The ends of walks from a word of places.
ghost use Rattle.std.specs.Prelude.{◌≡◌, ◌+◌, ◌*◌, ◌<◌, ◌≤◌, ℕ, true, length, slice_index};
ghost use Rattle.std.specs.Int.{bit_at};
ghost use Rattle.position_nfa.specs.Ends.{AddsEnds, AreStepEnds};
ghost use Rattle.place_words.specs.Words.{Has, set_of, words_for};

use crate::walks::Walks;

/// Puts in the targets of the members of word `k` of a set.
pub fn add_ends(word: u64, k: usize, targets: &[u32], out: &mut [u64])
    requires small { k < 256 }
    requires targets { (b : ℕ) → b < 64 → bit_at word b ≡ 1
        → (64 * k + b < length targets.now) × (slice_index targets.now (64 * k + b) < 64 * length out.old) }
    ensures ends { AddsEnds word k targets.now out.old out.new }
    ensures len { length out.new ≡ length out.old }
{
    let mut left = word;
    while left != 0 {
        let bit = left.trailing_zeros();
        left &= !(1u64 << bit);
        place_words::insert(out, targets[64 * k + bit as usize] as usize);
    }
}

/// Writes the targets of the members of a set that have one.
pub fn write_ends(walks: &Walks, set: &[u64], out: &mut [u64])
    requires small { length set.now ≤ 256 }
    requires sources { length walks.now.sources ≡ length set.now }
    requires targets { (i : ℕ) → Has set.now i → Has walks.now.sources i
        → (i < length walks.now.targets) × (slice_index walks.now.targets i < 64 * length out.old) }
    ensures ends { AreStepEnds set.now walks.now.sources walks.now.targets (length set.now) out.new }
    ensures len { length out.new ≡ length out.old }
{
    place_words::clear(out);
    let sources = walks.sources.as_slice();
    let targets = walks.targets.as_slice();
    for k in 0..set.len() {
        add_ends(set[k] & sources[k], k, targets, out);
    }
}

/// Writes the set of the numbers below a count.
pub fn write_below(count: usize, out: &mut [u64])
    requires { length out.old ≡ words_for count }
    ensures { out.new ≡ set_of count (λ i. true) }
{
    place_words::clear(out);
    for i in 0..count {
        place_words::insert(out, i);
    }
}
