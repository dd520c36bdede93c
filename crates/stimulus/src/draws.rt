//! Numbers drawn from a generator.
ghost use Rattle.std.specs.Prelude.{◌≡◌, ◌≤◌, ◌<◌, ◌+◌, ◌-◌, ◌^◌};
ghost use Rattle.stimulus.specs.Draws.{generator_of, after_draw, drawn, part_of};

use rand_core::utils::NextWord;
use rand_pcg::Lcg64Xsh32;

/// The generator of a seed and a stream: 0 for the crank, 1 for the first cam, 2 for the second.
pub fn generator(seed: u64, stream: u64) -> Lcg64Xsh32
    ensures { result ≡ generator_of seed stream }
{
    Lcg64Xsh32::new(seed, stream)
}

/// How far above its least number a draw from `count` numbers comes: the next two words, the low one first, modulo `count`.
pub fn draw_part(generator: &mut Lcg64Xsh32, count: u64) -> u64
    requires { 1 ≤ count }
    ensures value { result ≡ part_of count generator.old }
    ensures below { result < count }
    ensures after { generator.new ≡ after_draw generator.old }
{
    let first = generator.next_word();
    let second = generator.next_word();
    let both = u64::from(first) + (u64::from(second) << 32);
    both % count
}

/// The number that is drawn from `low` to `high`, both of which may come.
pub fn draw(generator: &mut Lcg64Xsh32, low: u64, high: u64) -> u64
    requires some { low ≤ high }
    requires most { high < 2 ^ 63 }
    ensures value { result ≡ drawn low high generator.old }
    ensures least { low ≤ result }
    ensures greatest { result ≤ high }
    ensures after { generator.new ≡ after_draw generator.old }
{
    low + draw_part(generator, high - low + 1)
}
