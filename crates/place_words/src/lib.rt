//! Sets of numbers, 64 in a word: bit `i` of word `k` is whether the number `64 * k + i` is in the set.
#![tactic(auto)]

ghost use Rattle.std.specs.Prelude.{◌≡◌, ◌*◌, ◌<◌, ◌↔◌, length, IsTrue, replicate};
ghost use Rattle.place_words.specs.Words.{Has, IsWith, IsBoth, has_none};

/// Whether the set has the number. It asks a number that the words have room for.
#[inline]
pub fn contains(set: &[u64], i: usize) -> bool
    requires { i < 64 * length set.now }
    ensures { IsTrue result ↔ Has set.now i }
{
    (set[i / 64] >> (i % 64)) & 1 == 1
}

/// Puts the number into the set. It asks a number that the words have room for.
#[inline]
pub fn insert(set: &mut [u64], i: usize)
    requires { i < 64 * length set.old }
    ensures with { IsWith set.old i set.new }
    ensures len { length set.new ≡ length set.old }
{
    set[i / 64] |= 1 << (i % 64);
}

/// Keeps what the mask has too. It asks as many words of it.
#[inline]
pub fn keep(set: &mut [u64], mask: &[u64])
    requires { length mask.now ≡ length set.old }
    ensures both { IsBoth set.old mask.now set.new }
    ensures len { length set.new ≡ length set.old }
{
    for k in 0..set.len() {
        set[k] &= mask[k];
    }
}

/// Takes every number out of the set.
#[inline]
pub fn clear(set: &mut [u64])
    ensures { set.new ≡ replicate (length set.old) 0 }
{
    for word in set.iter_mut() {
        *word = 0;
    }
}

/// Whether the set has no number.
#[inline]
pub fn is_empty(set: &[u64]) -> bool
    ensures { result ≡ has_none set.now }
{
    set.iter().all(|word| *word == 0)
}
