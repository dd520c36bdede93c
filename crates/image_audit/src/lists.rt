//! The places and cuts of an image.
ghost use Rattle.std.specs.Prelude.{◌≡◌, ℕ, OnOk, IfErr, slice_get};
ghost use Rattle.position_nfa.specs.Views.{alphabet};
ghost use Rattle.table_images.specs.Images.{table_of};
ghost use Rattle.image_audit.specs.Agreements.{time_cuts, ratio_cuts, AgreesInLists};
ghost use Rattle.image_audit.specs.Differences.{IsFirst};

use audit_faults::AuditFault;
use image_format::View;
use position_nfa::Nfa;
use wheel_types::Place;

/// Place `i` of the image, where there is one.
#[tactic(auto, using(crate::proofs::Listed::at_map, crate::proofs::Listed::past_map))]
fn found_place(view: &View<'_>, i: u32) -> Option<Place>
    ensures { result ≡ slice_get (table_of view.now.bytes.now).places i }
{
    if i < view.place_count() {
        Some(view.place(i))
    } else {
        None
    }
}

/// Place `i` of the wheel, where there is one.
fn due_place(nfa: &Nfa, i: u32) -> Option<Place>
    ensures { result ≡ slice_get (alphabet nfa.now).places i }
{
    if i < nfa.place_count() {
        Some(nfa.place(i))
    } else {
        None
    }
}

/// The places are those of the wheel.
fn check_places(nfa: &Nfa, view: &View<'_>) -> Result<(), AuditFault>
    ensures same { OnOk result ((table_of view.now.bytes.now).places ≡ (alphabet nfa.now).places) }
    ensures first { IfErr result (IsFirst (alphabet nfa.now) view.now.bytes.now) }
{
    for at in 0..view.place_count().max(nfa.place_count()) {
        let found = found_place(view, at);
        let due = due_place(nfa, at);
        if found != due {
            return Err(AuditFault::Places { at, found, due });
        }
    }
    Ok(())
}

/// Time cut `i` of the image, where there is one.
#[tactic(auto, using(crate::proofs::Listed::at_map, crate::proofs::Listed::past_map))]
fn found_time(view: &View<'_>, i: u32) -> Option<u64>
    ensures { result ≡ slice_get (table_of view.now.bytes.now).time_cuts i }
{
    if i < view.time_cuts() {
        Some(view.time_cut(i))
    } else {
        None
    }
}

/// Time cut `i` of the wheel, where there is one.
fn due_time(nfa: &Nfa, i: u32) -> Option<u64>
    ensures { result ≡ slice_get (time_cuts (alphabet nfa.now)) i }
{
    if i < nfa.cuts().time_count() {
        Some(nfa.cuts().time_cut(i))
    } else {
        None
    }
}

/// The time cuts are those of the wheel.
fn check_times(nfa: &Nfa, view: &View<'_>) -> Result<(), AuditFault>
    requires { (table_of view.now.bytes.now).places ≡ (alphabet nfa.now).places }
    ensures same { OnOk result ((table_of view.now.bytes.now).time_cuts ≡ time_cuts (alphabet nfa.now)) }
    ensures first { IfErr result (IsFirst (alphabet nfa.now) view.now.bytes.now) }
{
    for at in 0..view.time_cuts().max(nfa.cuts().time_count()) {
        let found = found_time(view, at);
        let due = due_time(nfa, at);
        if found != due {
            return Err(AuditFault::TimeCut { at, found, due });
        }
    }
    Ok(())
}

/// Ratio cut `i` of the image, where there is one.
#[tactic(auto, using(crate::proofs::Listed::at_map, crate::proofs::Listed::past_map))]
fn found_ratio(view: &View<'_>, i: u32) -> Option<(u32, u32)>
    ensures { result ≡ slice_get (table_of view.now.bytes.now).ratio_cuts i }
{
    if i < view.ratio_cuts() {
        Some(view.ratio_cut(i))
    } else {
        None
    }
}

/// Ratio cut `i` of the wheel, where there is one.
fn due_ratio(nfa: &Nfa, i: u32) -> Option<(u32, u32)>
    ensures { result ≡ slice_get (ratio_cuts (alphabet nfa.now)) i }
{
    if i < nfa.cuts().ratio_count() {
        Some(nfa.cuts().ratio_cut(i))
    } else {
        None
    }
}

/// The ratio cuts are those of the wheel.
fn check_ratios(nfa: &Nfa, view: &View<'_>) -> Result<(), AuditFault>
    requires places { (table_of view.now.bytes.now).places ≡ (alphabet nfa.now).places }
    requires times { (table_of view.now.bytes.now).time_cuts ≡ time_cuts (alphabet nfa.now) }
    ensures same { OnOk result ((table_of view.now.bytes.now).ratio_cuts ≡ ratio_cuts (alphabet nfa.now)) }
    ensures first { IfErr result (IsFirst (alphabet nfa.now) view.now.bytes.now) }
{
    for at in 0..view.ratio_cuts().max(nfa.cuts().ratio_count()) {
        let found = found_ratio(view, at);
        let due = due_ratio(nfa, at);
        if found != due {
            return Err(AuditFault::RatioCut { at, found, due });
        }
    }
    Ok(())
}

/// The places and cuts are those of the wheel.
pub fn check_lists(nfa: &Nfa, view: &View<'_>) -> Result<(), AuditFault>
    ensures same { OnOk result (AgreesInLists (alphabet nfa.now) view.now.bytes.now) }
    ensures first { IfErr result (IsFirst (alphabet nfa.now) view.now.bytes.now) }
{
    check_places(nfa, view)?;
    check_times(nfa, view)?;
    check_ratios(nfa, view)
}
