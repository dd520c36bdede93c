//! Walks of an image's table.
ghost use Rattle.std.specs.Prelude.{◌≡◌, ◌<◌, IsTrue, Some};
ghost use Rattle.sync_machine.specs.Times.{is_before};

use crate::Told;
use image_format::View;
use row_texts::instants_of;
use std::alloc::{AllocError, Global};
use std::marker::Brand;
use std::sync::ledger::{Blank, Ledger};
use sync_machine::{Machine, MachineVerdict, Steps};
use wheel_types::Instant;

/// Whether the instant is later than the machine's last one.
fn is_later(machine: &Machine<'_>, instant: &Instant) -> bool
    ensures { IsTrue result → IsTrue (is_before machine.now.time (Some instant.now.time)) }
{
    match machine.last() {
        Some(last) => last < instant.time,
        None => true,
    }
}

/// The text of a verdict, the state after it, and how many entries were read.
fn text_of_step(
    alloc: Global,
    verdict: MachineVerdict,
    state: u32,
    reads: u64,
) -> Result<String, AllocError> {
    match verdict {
        MachineVerdict::At { j } => format!(in alloc; "at {j} in {state} by {reads}"),
        MachineVerdict::Open { e, f } => format!(in alloc; "open {e} {f} in {state} by {reads}"),
        MachineVerdict::Lost => format!(in alloc; "lost in {state} by {reads}"),
    }
}

/// What a machine says of instants in turn, if each is later than the one before it.
fn told_of_instants<L: Ledger>(
    alloc: Global,
    view: &View<'_>,
    instants: &[Instant],
    blank: Blank,
) -> Told
    requires name { blank.name ≡ L.name }
    requires parts { blank.parts ≡ L.parts }
    requires some { 0 < blank.parts }
{
    let mut steps = Steps::<L>::new(blank);
    let mut machine = Machine::new(view.again());
    let mut told = String::new(alloc);
    for instant in instants {
        if !is_later(&machine, instant) {
            return Ok(None);
        }
        let before = machine.reads();
        let verdict = machine.step(instant, &mut steps);
        let reads = machine.reads().wrapping_sub(before);
        if !told.is_empty() {
            told.push_str("; ")?;
        }
        told.push_str(&text_of_step(alloc, verdict, machine.state(), reads)?)?;
    }
    Ok(Some(told))
}

/// What is told of the walk of an image over the instants of a text.
pub fn told_of_walk(alloc: Global, view: &View<'_>, instants: &str) -> Told {
    let Some(instants) = instants_of(alloc, instants)? else {
        return Ok(None);
    };
    told_of_instants::<Brand>(alloc, view, instants.as_slice(), Blank::new(1))
}
