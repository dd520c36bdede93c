//! The classes of gaps, found by halving an image's cuts.
ghost use Rattle.std.specs.Prelude.{◌≡◌, ◌≤◌, ◌+◌, ◌-◌, ◌*◌, ◌^◌};
ghost use Rattle.image_layout.specs.Layout.{time_total, ratio_total};
ghost use Rattle.image_format.specs.Walk.{time_class_of, ratio_class_of};

use crate::steps::Steps;
use image_format::View;
use std::sync::ledger::Ledger;

/// The class of a gap. Each comparison with a cut ticks.
pub fn time_class<L: Ledger>(view: &View<'_>, t: u64, steps: &mut Steps<L>) -> u32
    ensures class { result ≡ time_class_of view.now.bytes.now t }
    ensures within { result ≤ time_total view.now.bytes.now }
    ensures grown { steps.old ≤ steps.new }
    ensures cost { 2 ^ (steps.new - steps.old) ≤ 2 * time_total view.now.bytes.now + 1 }
{
    let mut low = 0;
    let mut high = view.time_cuts();
    while low < high {
        let middle = low + (high - low) / 2;
        steps.tick();
        if view.time_cut(middle) <= t {
            low = middle + 1;
        } else {
            high = middle;
        }
    }
    low
}

/// The class of a gap's time by the one before. Each comparison with a cut ticks.
pub fn ratio_class<L: Ledger>(view: &View<'_>, t0: u64, t1: u64, steps: &mut Steps<L>) -> u32
    requires before { 1 ≤ t0 }
    ensures class { result ≡ ratio_class_of view.now.bytes.now t0 t1 }
    ensures within { result ≤ 2 * ratio_total view.now.bytes.now }
    ensures grown { steps.old ≤ steps.new }
    ensures cost { 2 ^ (steps.new - steps.old) ≤ 2 * ratio_total view.now.bytes.now + 1 }
{
    let mut low = 0;
    let mut high = view.ratio_cuts();
    while low < high {
        let middle = low + (high - low) / 2;
        steps.tick();
        let (top, bottom) = view.ratio_cut(middle);
        let cut = u128::from(top) * u128::from(t0);
        let gaps = u128::from(t1) * u128::from(bottom);
        if cut == gaps {
            return 2 * middle + 1;
        }
        if cut < gaps {
            low = middle + 1;
        } else {
            high = middle;
        }
    }
    2 * low
}
