//! The places where motions end, read from a state's set, and what a certificate says of them.
ghost use Rattle.std.specs.Prelude.{◌≡◌, ◌<◌, ◌+◌, ◌*◌, All, IfOk, OnOk};
ghost use Rattle.wheel_types.specs.declared.parts.WheelParts.{WheelParts};
ghost use Rattle.image_layout.specs.Layout.{set_words, state_total};
ghost use Rattle.cam_ranges.specs.Gathered.{AreExactly};
ghost use Rattle.pair_certificate.specs.Reports.{IsKindInRange, IsPlaceInRange};
ghost use Rattle.sound_walk.specs.Holding.{HasMember};
ghost use Rattle.replay_core.specs.Counts.{AreEdgesIn};
ghost use Rattle.replay_core.specs.Covers.{kind_for, members_below, members_in, AreMembersBy};

use crate::counts::EdgeCounts;
use crate::starts::CycleEdges;
use image_format::View;
use pair_certificate::CertKind;
use std::alloc::Global;
use wheel_types::{List, Memory, Place, Verdict};

/// How many members a state's set has.
fn member_count(view: &View<'_>, state: u32) -> usize
    requires { state < state_total view.now.bytes.now }
    ensures { result ≡ members_in view.now.bytes.now state (set_words view.now.bytes.now) }
{
    let mut count = 0;
    for word in 0..view.words() {
        count += view.member(state, word).count_ones() as usize;
    }
    count
}

/// Puts the members of one word of a state's set behind those of the words before.
///
/// # Errors
/// Want of memory.
fn add_word(view: &View<'_>, state: u32, word: u32, places: &mut Vec<Place>) -> Result<(), Memory>
    requires state { state < state_total view.now.bytes.now }
    requires word { word < set_words view.now.bytes.now }
    requires before { places.old.items ≡ members_below view.now.bytes.now state (64 * word) }
    requires range { All IsPlaceInRange places.old.items }
    ensures after { OnOk result (places.new.items ≡ members_below view.now.bytes.now state (64 * (word + 1))) }
    ensures range { OnOk result (All IsPlaceInRange places.new.items) }
{
    let mut number = 64 * word;
    let mut left = view.member(state, word);
    while left != 0 {
        let skipped = left.trailing_zeros();
        number += skipped;
        places.push(view.place(number))?;
        number += 1;
        left = left >> skipped >> 1;
    }
    Ok(())
}

/// The places of the members of a state's set, ascending.
///
/// # Errors
/// Want of memory.
fn members(alloc: Global, view: &View<'_>, state: u32) -> Result<List<Place>, Memory>
    requires { state < state_total view.now.bytes.now }
    ensures exact { IfOk result (AreExactly (HasMember view.now.bytes.now state)) }
    ensures range { IfOk result (All IsPlaceInRange) }
{
    let mut places = Vec::with_capacity(alloc, member_count(view, state))?;
    for word in 0..view.words() {
        add_word(view, state, word, &mut places)?;
    }
    Ok(List::from_vec(places))
}

/// The places where a window's motions end: the members of its state's set, and none where the window has no instant.
///
/// # Errors
/// Want of memory.
pub fn ends(
    alloc: Global,
    view: &View<'_>,
    state: u32,
    started: bool,
) -> Result<List<Place>, Memory>
    requires { state < state_total view.now.bytes.now }
    ensures members { IfOk result (AreMembersBy started view.now.bytes.now state) }
    ensures range { IfOk result (All IsPlaceInRange) }
{
    if !started {
        return Ok(List::from_vec(Vec::new(alloc)));
    }
    members(alloc, view, state)
}

/// What the exact certificate says of the last instant's verdict, where the window's motions end at these places, ascending.
pub fn kind_of(
    cycle: CycleEdges,
    passed: EdgeCounts,
    said: Option<Verdict>,
    ends: &[Place],
) -> CertKind
    requires { 0 < cycle.crank }
    ensures kind { (w : WheelParts) → AreEdgesIn w cycle → result ≡ kind_for w passed said ends.now }
    ensures range { IsKindInRange result }
{
    match said {
        Some(Verdict::At { .. }) => match ends {
            [least, ..] => CertKind::At {
                a: cycle.start(*least, passed),
            },
            [] => CertKind::Lost,
        },
        Some(Verdict::Open { a, b }) => CertKind::Open { a, b },
        Some(Verdict::Lost) | None => CertKind::Lost,
    }
}
