//! Writing a report line by line, and telling taps of it.
ghost use Rattle.std.specs.Prelude.{◌≡◌, ◌≤◌, ◌<◌, ◌+◌, ◌-◌, ◌^◌, [], ◌∷◌, map, reverse, ◌<ℤ◌, List, Some, None, IfOk, IfErr, IfSome, OnOk, IsErrOf, IsTrue, unsigned_abs};
ghost use Rattle.shelf_traits.specs.Count.{Rose};
ghost use Rattle.wheel_types.specs.declared.parts.WheelParts.{WheelParts};
ghost use Rattle.wheel_types.specs.declared.instant.Instant.{Instant as Moment};
ghost use Rattle.wheel_types.specs.declared.verdict.Verdict.{Verdict as Judgement};
ghost use Rattle.wheel_types.specs.Verdicts.{IsRising, AreWithin};
ghost use Rattle.wheel_types.specs.Wheels.{IsWheel};
ghost use Rattle.replay_core.specs.Sessions.{last_of, stepped_of};
ghost use Rattle.run_ends.specs.Works.{StopsWrite};
ghost use Rattle.wheelsync.specs.Outputs.{GetsReport, GetsFront};
ghost use Rattle.wheelsync.specs.Stepping.{StandsOver, GetsLine, GetsLineFront};

use certified_replay::put_line;
use pair_certificate::report_line;
use replay_core::Session;
use run_ends::Cause;
use shelf_io::Sink;
use std::alloc::Global;
use tap_board::{Board, Tap};
use wheel_types::{Instant, Memory};

/// Steps one instant, writes its line, and tells the board.
fn put_instant<O: Sink>(
    alloc: Global,
    out: &mut O,
    session: &mut Session<'_>,
    board: &mut Board,
    instant: &Instant,
) -> Result<(), Cause>
    requires later { IfSome (last_of session.old) (λ t. t <ℤ instant.now.time) }
    requires few { stepped_of session.old < 2 ^ 64 - 1 }
    requires size { unsigned_abs instant.now.time ≤ 10 ^ 24 }
    ensures later { O.faults out.old ≤ O.faults out.new }
    ensures last { OnOk result (last_of session.new ≡ Some instant.now.time) }
    ensures stepped { OnOk result (stepped_of session.new ≡ stepped_of session.old + 1) }
    ensures ok { OnOk result ((w : WheelParts) (past : List Moment) (verdicts : List Judgement) → StandsOver w session.old past verdicts → IsRising (reverse (instant.now ∷ past))
        → GetsLine (O.taken out.old) (O.taken out.new) (map (λ tap. (⟦<dyn Tap as Tap>⟧ tap.vtable).meaning tap.value) board.old.taps.items)
        (map (λ tap. (⟦<dyn Tap as Tap>⟧ tap.vtable).meaning tap.value) board.new.taps.items) w session.new (stepped_of session.old + 1) instant.now past verdicts) }
    ensures untold { IsErrOf result Cause.WriteFault → (map (λ tap. (⟦<dyn Tap as Tap>⟧ tap.vtable).meaning tap.value) board.new.taps.items)
        ≡ (map (λ tap. (⟦<dyn Tap as Tap>⟧ tap.vtable).meaning tap.value) board.old.taps.items) }
    ensures err { IfErr result (λ e. (w : WheelParts) (past : List Moment) (verdicts : List Judgement) → StandsOver w session.old past verdicts → IsRising (reverse (instant.now ∷ past))
        → GetsLineFront e (O.taken out.old) (O.taken out.new) w (stepped_of session.old + 1) instant.now past verdicts) }
    ensures kinds { IfErr result StopsWrite }
    ensures write { IsErrOf result Cause.WriteFault → Rose (O.faults out.old) (O.faults out.new) }
    ensures quiet { ¬ IsErrOf result Cause.WriteFault → O.faults out.new ≡ O.faults out.old }
    ensures steady { IsTrue (O.steady out.old) → IsTrue (O.steady out.new) }
    ensures calm { IsTrue (O.steady out.old) → ¬ IsErrOf result Cause.WriteFault }
{
    let report = session.step(instant);
    let line = match report_line(alloc, &report) {
        Ok(line) => line,
        Err(Memory) => return Err(Cause::Memory),
    };
    put_line(out, &line)?;
    match board.tell(&report) {
        Ok(()) => Ok(()),
        Err(Memory) => Err(Cause::Memory),
    }
}

/// Writes the report of instants whose times rise, by a fresh session over a sound image, and tells the board of each line past it.
pub fn put_report<O: Sink>(
    alloc: Global,
    out: &mut O,
    session: &mut Session<'_>,
    board: &mut Board,
    instants: &[Instant],
) -> Result<(), Cause>
    requires fresh { last_of session.old ≡ None }
    requires none { stepped_of session.old ≡ 0 }
    requires rising { IsRising instants.now }
    requires sizes { AreWithin (10 ^ 24) instants.now }
    ensures later { O.faults out.old ≤ O.faults out.new }
    ensures ok { OnOk result ((w : WheelParts) → StandsOver w session.old [] [] → GetsReport (O.taken out.old) (O.taken out.new)
        (map (λ tap. (⟦<dyn Tap as Tap>⟧ tap.vtable).meaning tap.value) board.old.taps.items)
        (map (λ tap. (⟦<dyn Tap as Tap>⟧ tap.vtable).meaning tap.value) board.new.taps.items) w instants.now) }
    ensures err { IfErr result (λ e. (w : WheelParts) → IsWheel w → StandsOver w session.old [] [] → GetsFront e (O.taken out.old) (O.taken out.new)
        (map (λ tap. (⟦<dyn Tap as Tap>⟧ tap.vtable).meaning tap.value) board.old.taps.items)
        (map (λ tap. (⟦<dyn Tap as Tap>⟧ tap.vtable).meaning tap.value) board.new.taps.items) w instants.now) }
    ensures kinds { IfErr result StopsWrite }
    ensures write { IsErrOf result Cause.WriteFault → Rose (O.faults out.old) (O.faults out.new) }
    ensures quiet { ¬ IsErrOf result Cause.WriteFault → O.faults out.new ≡ O.faults out.old }
    ensures steady { IsTrue (O.steady out.old) → IsTrue (O.steady out.new) }
    ensures calm { IsTrue (O.steady out.old) → ¬ IsErrOf result Cause.WriteFault }
{
    for instant in instants {
        put_instant(alloc, out, session, board, instant)?;
    }
    Ok(())
}
