//! Masks: which places the classes of times and ratios keep.
ghost use Rattle.std.specs.Prelude.{◌≡◌, ◌+◌, ◌*◌, ◌<◌, ◌≤◌, ◌⊎◌, ℕ, All, IfOk, length, replicate};
ghost use Rattle.wheel_types.specs.Edges.{slot_count};
ghost use Rattle.gap_thresholds.specs.Classes.{wheel_of, times_of, ratios_of};
ghost use Rattle.cam_ranges.specs.Places.{IsPlace};
ghost use Rattle.place_words.specs.Words.{Has, words_for};
ghost use Rattle.position_nfa.specs.Sets.{next_gap, last_gap, first_time, last_time, first_ratio, last_ratio, keeps_time, keeps_ratio};
ghost use Rattle.position_nfa.specs.BitTables.{IsBitTable, AddsRun};

use gap_thresholds::Cuts;
use legal_steps::Motions;
use motion_bounds::{greatest_time, least_time};
use std::alloc::Global;
use wheel_types::{Memory, Place};

/// How many words a set of `count` places has.
pub fn words_of(count: usize) -> usize
    requires { count ≤ 16384 }
    ensures { result ≡ words_for count }
{
    (count + 63) / 64
}

/// So many words of zeros.
pub fn zeros(alloc: Global, count: usize) -> Result<Vec<u64>, Memory>
    ensures { IfOk result (λ words. words.items ≡ replicate count 0) }
{
    let mut words = Vec::with_capacity(alloc, count)?;
    for _ in 0..count {
        words.push(0)?;
    }
    Ok(words)
}

/// Puts the number `i` into the rows from `first` up to `end`, of so many words each.
fn add_run(table: &mut [u64], words: usize, i: usize, first: usize, end: usize)
    requires room { i < 64 * words }
    requires rows { end * words ≤ length table.old }
    requires small { (words ≤ 256) × (end ≤ 16385) }
    ensures run { AddsRun words i first end table.old table.new }
    ensures len { length table.new ≡ length table.old }
{
    for row in first..end {
        place_words::insert(table, row * (64 * words) + i);
    }
}

/// The slots of a place's next gap.
fn next_slots(motions: &Motions, place: Place) -> u32
    requires { IsPlace motions.now.wheel.parts place }
    ensures slots { result ≡ next_gap motions.now.wheel.parts place }
    ensures some { 1 ≤ result }
    ensures most { result ≤ slot_count motions.now.wheel.parts }
{
    motions.edges.crank_gap(place.j)
}

/// The slots of a place's last gap.
fn last_slots(motions: &Motions, place: Place) -> u32
    requires { IsPlace motions.now.wheel.parts place }
    ensures slots { result ≡ last_gap motions.now.wheel.parts place }
    ensures some { 1 ≤ result }
    ensures most { result ≤ slot_count motions.now.wheel.parts }
{
    motions.gap_before(place.j)
}

/// The first and the last time class that a place's next gap allows.
fn time_run(motions: &Motions, cuts: &Cuts, place: Place) -> (u32, u32)
    requires wheel { wheel_of cuts.now ≡ motions.now.wheel.parts }
    requires place { IsPlace motions.now.wheel.parts place }
    ensures first { result.0 ≡ first_time cuts.now (next_gap (wheel_of cuts.now) place) }
    ensures last { result.1 ≡ last_time cuts.now (next_gap (wheel_of cuts.now) place) }
{
    let slots = next_slots(motions, place);
    let first = cuts.time_class(least_time(&motions.wheel, slots));
    let last = cuts.time_class(greatest_time(&motions.wheel, slots));
    (first, last)
}

/// The first and the last ratio class that a place's last and next gap allow.
fn ratio_run(motions: &Motions, cuts: &Cuts, place: Place) -> (u32, u32)
    requires wheel { wheel_of cuts.now ≡ motions.now.wheel.parts }
    requires place { IsPlace motions.now.wheel.parts place }
    ensures first { result.0 ≡ first_ratio cuts.now (last_gap (wheel_of cuts.now) place) (next_gap (wheel_of cuts.now) place) }
    ensures last { result.1 ≡ last_ratio cuts.now (last_gap (wheel_of cuts.now) place) (next_gap (wheel_of cuts.now) place) }
{
    let s0 = u64::from(last_slots(motions, place));
    let s1 = u64::from(next_slots(motions, place));
    let parts = motions.wheel.parts();
    let (rn, rd) = (u64::from(parts.rn), u64::from(parts.rd));
    let first = cuts.ratio_class(s0 * rn, s1 * rd);
    let last = cuts.ratio_class(s0 * rd, s1 * rn);
    (first, last)
}

/// The rows from the first to the last that a table has, up to its number of rows.
fn end_of_run(last: u32, rows: usize) -> usize
    ensures rows { result ≤ rows }
    ensures past { (r : ℕ) → r < rows → r ≤ last → r < result }
    ensures only { (r : ℕ) → r < result → r ≤ last }
{
    rows.min(last as usize + 1)
}

/// Puts the places into the rows of the time classes that keep them.
fn fill_times(
    motions: &Motions,
    cuts: &Cuts,
    places: &[Place],
    words: usize,
    rows: usize,
    table: &mut [u64],
)
    requires wheel { wheel_of cuts.now ≡ motions.now.wheel.parts }
    requires places { All (IsPlace motions.now.wheel.parts) places.now }
    requires few { length places.now ≤ 16384 }
    requires words { words ≡ words_for (length places.now) }
    requires rows { rows ≡ length (times_of cuts.now) + 1 }
    requires zeros { table.old ≡ replicate (rows * words) 0 }
    ensures { IsBitTable (length places.now) rows (keeps_time (record { places = places.now; cuts = cuts.now })) table.new }
{
    for i in 0..places.len() {
        let (first, last) = time_run(motions, cuts, places[i]);
        let end = end_of_run(last, rows);
        add_run(table, words, i, first as usize, end);
    }
}

/// The masks of the time classes, one after the other.
pub fn time_masks(
    alloc: Global,
    motions: &Motions,
    cuts: &Cuts,
    places: &[Place],
) -> Result<Vec<u64>, Memory>
    requires wheel { wheel_of cuts.now ≡ motions.now.wheel.parts }
    requires places { All (IsPlace motions.now.wheel.parts) places.now }
    requires few { length places.now ≤ 16384 }
    ensures { IfOk result (λ table. IsBitTable (length places.now) (length (times_of cuts.now) + 1)
        (keeps_time (record { places = places.now; cuts = cuts.now })) table.items) }
{
    let words = words_of(places.len());
    let rows = cuts.time_count() as usize + 1;
    let mut table = zeros(alloc, rows * words)?;
    fill_times(motions, cuts, places, words, rows, table.as_mut_slice());
    Ok(table)
}

/// Puts the places into the rows of the ratio classes that keep them.
fn fill_ratios(
    motions: &Motions,
    cuts: &Cuts,
    places: &[Place],
    words: usize,
    rows: usize,
    table: &mut [u64],
)
    requires wheel { wheel_of cuts.now ≡ motions.now.wheel.parts }
    requires places { All (IsPlace motions.now.wheel.parts) places.now }
    requires few { length places.now ≤ 16384 }
    requires words { words ≡ words_for (length places.now) }
    requires rows { rows ≡ 2 * length (ratios_of cuts.now) + 1 }
    requires zeros { table.old ≡ replicate (rows * words) 0 }
    ensures { IsBitTable (length places.now) rows (keeps_ratio (record { places = places.now; cuts = cuts.now })) table.new }
{
    for i in 0..places.len() {
        let (first, last) = ratio_run(motions, cuts, places[i]);
        let end = end_of_run(last, rows);
        add_run(table, words, i, first as usize, end);
    }
}

/// The masks of the ratio classes, one after the other.
pub fn ratio_masks(
    alloc: Global,
    motions: &Motions,
    cuts: &Cuts,
    places: &[Place],
) -> Result<Vec<u64>, Memory>
    requires wheel { wheel_of cuts.now ≡ motions.now.wheel.parts }
    requires places { All (IsPlace motions.now.wheel.parts) places.now }
    requires few { length places.now ≤ 16384 }
    ensures { IfOk result (λ table. IsBitTable (length places.now) (2 * length (ratios_of cuts.now) + 1)
        (keeps_ratio (record { places = places.now; cuts = cuts.now })) table.items) }
{
    let words = words_of(places.len());
    let rows = 2 * cuts.ratio_count() as usize + 1;
    let mut table = zeros(alloc, rows * words)?;
    fill_ratios(motions, cuts, places, words, rows, table.as_mut_slice());
    Ok(table)
}
