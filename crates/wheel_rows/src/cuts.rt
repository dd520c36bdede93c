//! Cuts of wheels, the classes around them, and the classes that gaps keep.
ghost use Rattle.std.specs.Prelude.{◌≡◌, ◌<◌, length};
ghost use Rattle.wheel_types.specs.declared.channel.Channel.{Channel};
ghost use Rattle.wheel_types.specs.declared.parts.WheelParts.{WheelParts as Parts};
ghost use Rattle.edge_angles.specs.EdgeTables.{AreEdgesOf, edges_in};
ghost use Rattle.gap_thresholds.specs.Classes.{wheel_of};
ghost use Rattle.gap_thresholds.specs.Gaps.{IsGap, AreGaps};

use edge_angles::{Edges, find_edges};
use gap_thresholds::Cuts;
use std::alloc::{AllocError, Global};
use std::fmt::Write;
use wheel_types::{Memory, Wheel};

/// By how much a ratio's times are longer than its numbers.
const LONG: u64 = 1_000_000_000;

/// The gap after crank edge `j`, and the one after that.
fn gaps_after(edges: &Edges, j: u32) -> (u32, u32)
    requires { j < length (edges_in edges.now Channel.Crank) }
    ensures { (parts : Parts) → AreEdgesOf parts edges.now → AreGaps parts result.0 result.1 }
{
    let next = if j + 1 < edges.crank_count() {
        j + 1
    } else {
        0
    };
    (edges.crank_gap(j), edges.crank_gap(next))
}

/// Adds the time cuts, and then the ratio cuts.
fn add_cuts(told: &mut String, cuts: &Cuts) -> Result<(), AllocError> {
    told.push_str("times")?;
    for i in 0..cuts.time_count() {
        write!(told, " {}", cuts.time_cut(i))?;
    }
    told.push_str("; ratios")?;
    for i in 0..cuts.ratio_count() {
        let (top, bottom) = cuts.ratio_cut(i);
        write!(told, " {top}/{bottom}")?;
    }
    Ok(())
}

/// Adds the classes of the times just before each cut, at it, and just past it.
fn add_time_classes(told: &mut String, cuts: &Cuts) -> Result<(), AllocError> {
    told.push_str("times")?;
    for i in 0..cuts.time_count() {
        let cut = cuts.time_cut(i);
        let before = cuts.time_class(cut.saturating_sub(1));
        let past = cuts.time_class(cut.saturating_add(1));
        write!(told, " {before}-{}-{past}", cuts.time_class(cut))?;
    }
    Ok(())
}

/// The same of ratios, with times that are some hundred million times as long as the numbers of the cut.
fn add_ratio_classes(told: &mut String, cuts: &Cuts) -> Result<(), AllocError> {
    told.push_str("; ratios")?;
    for i in 0..cuts.ratio_count() {
        let (top, bottom) = cuts.ratio_cut(i);
        let t0 = (u64::from(bottom) * LONG).max(1);
        let t1 = u64::from(top) * LONG;
        let before = cuts.ratio_class(t0, t1.saturating_sub(1));
        let past = cuts.ratio_class(t0, t1.saturating_add(1));
        write!(told, " {before}-{}-{past}", cuts.ratio_class(t0, t1))?;
    }
    Ok(())
}

/// Adds the time classes that a gap keeps.
fn add_kept_times(told: &mut String, cuts: &Cuts, slots: u32) -> Result<(), AllocError>
    requires { IsGap (wheel_of cuts.now) slots }
{
    told.push_str("times")?;
    for class in 0..=cuts.time_count() {
        if cuts.time_keeps(class, slots) {
            write!(told, " {class}")?;
        }
    }
    Ok(())
}

/// Adds the ratio classes that two gaps keep, the second after the first.
fn add_kept_ratios(told: &mut String, cuts: &Cuts, s0: u32, s1: u32) -> Result<(), AllocError>
    requires { AreGaps (wheel_of cuts.now) s0 s1 }
{
    told.push_str(", ratios")?;
    for class in 0..=2 * cuts.ratio_count() {
        if cuts.ratio_keeps(class, s0, s1) {
            write!(told, " {class}")?;
        }
    }
    Ok(())
}

/// Adds what each gap of a wheel keeps, edge by edge.
fn add_kept(told: &mut String, cuts: &Cuts, edges: &Edges) -> Result<(), AllocError>
    requires { AreEdgesOf (wheel_of cuts.now) edges.now }
{
    for j in 0..edges.crank_count() {
        let (s0, s1) = gaps_after(edges, j);
        told.push_str(if j == 0 { "" } else { "; " })?;
        add_kept_times(told, cuts, s0)?;
        add_kept_ratios(told, cuts, s0, s1)?;
    }
    Ok(())
}

/// What is told of the cuts of a wheel: themselves, the classes around them, or the classes that its gaps keep.
fn told_of(alloc: Global, kind: &str, wheel: &Wheel) -> Result<Option<String>, Memory> {
    let edges = find_edges(alloc, wheel)?;
    let cuts = Cuts::build(alloc, wheel, &edges)?;
    let mut told = String::new(alloc);
    match kind {
        "cuts" => add_cuts(&mut told, &cuts)?,
        "classes" => {
            add_time_classes(&mut told, &cuts)?;
            add_ratio_classes(&mut told, &cuts)?;
        }
        "kept" => add_kept(&mut told, &cuts, &edges)?,
        _ => return Ok(None),
    }
    Ok(Some(told))
}

/// What is told of a wheel's cuts, where the kind asks for it.
pub fn told_of_cuts(
    alloc: Global,
    kind: &str,
    wheel: &Wheel,
) -> Result<Option<String>, AllocError> {
    match told_of(alloc, kind, wheel) {
        Ok(told) => Ok(told),
        Err(Memory) => Err(AllocError),
    }
}
