//! Writing the lines of a trace.
ghost use Rattle.std.specs.Prelude.{◌≡◌, ◌≤◌, ◌<◌, ◌+◌, ◌∷◌, List, Some, length, IfErr, OnOk, OnErr, IsErrOf, IsTrue};
ghost use Rattle.std.specs.Io.KnownBytes.{Appends};
ghost use Rattle.shelf_traits.specs.Count.{Rose};
ghost use Rattle.wheel_types.specs.declared.instant.Instant.{Instant as Moment};
ghost use Rattle.wheel_types.specs.Verdicts.{IsRising};
ghost use Rattle.image_format.specs.Walk.{stand_after};
ghost use Rattle.sync_machine.specs.Machine.{StandsFor};
ghost use Rattle.sync_machine.specs.Times.{is_before};
ghost use Rattle.run_ends.specs.Works.{StopsWrite};
ghost use Rattle.run_ends.specs.Prefixes.{AppendsPrefix};
ghost use Rattle.image_commands.specs.Trace.{trace_line, trace_text};

use crate::line::state_line;
use image_format::View;
use run_ends::{Cause, put};
use shelf_io::Sink;
use std::alloc::Global;
use std::marker::Brand;
use std::sync::ledger::{Blank, Ledger};
use sync_machine::{Machine, Steps};
use wheel_types::{Instant, Memory};

/// Steps a machine with a counter of its own, and gives its state after the instant.
fn walked<L: Ledger>(machine: &mut Machine<'_>, instant: &Instant, blank: Blank) -> u32
    requires name { blank.name ≡ L.name }
    requires parts { blank.parts ≡ L.parts }
    requires some { 0 < blank.parts }
    requires later { IsTrue (is_before machine.old.time (Some instant.now.time)) }
    ensures state { (past : List Moment) → StandsFor machine.old past → result ≡ (stand_after machine.old.view.bytes.now (instant.now ∷ past)).state }
    ensures stands { (past : List Moment) → StandsFor machine.old past → StandsFor machine.new (instant.now ∷ past) }
    ensures view { machine.new.view.bytes.now ≡ machine.old.view.bytes.now }
{
    let mut steps = Steps::<L>::new(blank);
    machine.step(instant, &mut steps);
    machine.state()
}

/// Steps one instant, and writes its line.
fn put_instant<O: Sink>(
    alloc: Global,
    out: &mut O,
    machine: &mut Machine<'_>,
    index: u64,
    instant: &Instant,
) -> Result<(), Cause>
    requires later { IsTrue (is_before machine.old.time (Some instant.now.time)) }
    ensures later { O.faults out.old ≤ O.faults out.new }
    ensures stands { (past : List Moment) → StandsFor machine.old past → StandsFor machine.new (instant.now ∷ past) }
    ensures view { machine.new.view.bytes.now ≡ machine.old.view.bytes.now }
    ensures ok { OnOk result ((past : List Moment) → StandsFor machine.old past → index ≡ length past + 1
        → Appends (O.taken out.old) (O.taken out.new) (trace_line machine.old.view.bytes.now past instant.now)) }
    ensures err { OnErr result ((past : List Moment) → StandsFor machine.old past → index ≡ length past + 1
        → AppendsPrefix (O.taken out.old) (O.taken out.new) (trace_line machine.old.view.bytes.now past instant.now)) }
    ensures kinds { IfErr result StopsWrite }
    ensures write { IsErrOf result Cause.WriteFault → Rose (O.faults out.old) (O.faults out.new) }
    ensures quiet { ¬ IsErrOf result Cause.WriteFault → O.faults out.new ≡ O.faults out.old }
    ensures steady { IsTrue (O.steady out.old) → IsTrue (O.steady out.new) }
    ensures calm { IsTrue (O.steady out.old) → ¬ IsErrOf result Cause.WriteFault }
{
    let state = walked::<Brand>(machine, instant, Blank::new(1));
    let line = match state_line(alloc, index, instant, state) {
        Ok(line) => line,
        Err(Memory) => return Err(Cause::Memory),
    };
    put(out, line.as_bytes())
}

/// Writes a line for each of the instants, whose times rise, by the walk of an image's table.
pub fn put_trace<O: Sink>(
    alloc: Global,
    out: &mut O,
    view: View<'_>,
    instants: &[Instant],
) -> Result<(), Cause>
    requires rising { IsRising instants.now }
    ensures later { O.faults out.old ≤ O.faults out.new }
    ensures ok { OnOk result (Appends (O.taken out.old) (O.taken out.new) (trace_text view.entry.bytes.now instants.now)) }
    ensures err { OnErr result (AppendsPrefix (O.taken out.old) (O.taken out.new) (trace_text view.entry.bytes.now instants.now)) }
    ensures kinds { IfErr result StopsWrite }
    ensures write { IsErrOf result Cause.WriteFault → Rose (O.faults out.old) (O.faults out.new) }
    ensures quiet { ¬ IsErrOf result Cause.WriteFault → O.faults out.new ≡ O.faults out.old }
    ensures steady { IsTrue (O.steady out.old) → IsTrue (O.steady out.new) }
    ensures calm { IsTrue (O.steady out.old) → ¬ IsErrOf result Cause.WriteFault }
{
    let mut machine = Machine::new(view);
    for (number, instant) in instants.iter().enumerate() {
        put_instant(alloc, out, &mut machine, number as u64 + 1, instant)?;
    }
    Ok(())
}
