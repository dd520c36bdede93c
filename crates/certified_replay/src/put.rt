//! Writing a report on out and its exact certificate into a file, line after line, and telling taps of each.
ghost use Rattle.std.specs.Prelude.{map, reverse, IsErrOf, ◌≡◌, ◌+◌, ◌-◌, ◌<◌, ◌≤◌, ◌^◌, ◌∷◌, [], ◌<ℤ◌, ◌⊎◌, List, Some, None, IfErr, IfSome, OnOk, IsTrue, unsigned_abs};
ghost use Rattle.shelf_traits.specs.Shelf.{IsWriter, WritesOn};
ghost use Rattle.wheel_types.specs.declared.instant.Instant.{Instant as Moment};
ghost use Rattle.wheel_types.specs.declared.verdict.Verdict.{Verdict as Judgement};
ghost use Rattle.wheel_types.specs.Verdicts.{IsRising, AreWithin};
ghost use Rattle.wheel_types.specs.Wheels.{IsWheel};
ghost use Rattle.replay_core.specs.Sessions.{image_of, last_of, stepped_of};
ghost use Rattle.pair_certificate.specs.declared.line.CertLine.{CertLine as Record};
ghost use Rattle.certificate_checker.specs.Exact.{AreExactLines};
ghost use Rattle.run_ends.specs.Serving.{stream};
ghost use Rattle.tap_board.specs.Marks.{mark_of};
ghost use Rattle.certified_replay.specs.Walked.{wheel_of, HasWalked};
ghost use Rattle.certified_replay.specs.Puts.{StoppedBoth, GetsTexts, GetsCut, GetsLines, GetsCutLines, GetsBoth, GetsBothFront, stand_beside};

use crate::lines::{Lines, both_lines};
use crate::whole::{put_beside, put_line};
use image_audit::Sound;
use replay_core::Session;
use run_ends::Cause;
use shelf_io::{Shelf, Sink};
use std::alloc::Global;
use tap_board::{Board, Tap};
use wheel_types::{Instant, Memory};

/// Writes a line of a report on out, and then the line beside it into the file of a slot.
fn put_lines<S: Shelf, O: Sink>(
    shelf: &mut S,
    slot: u32,
    out: &mut O,
    lines: &Lines,
) -> Result<(), Cause>
    requires writer { IsWriter (S.view shelf.old) slot }
    ensures keeps { WritesOn (S.view shelf.old) (S.view shelf.new) slot }
    ensures later { O.faults out.old ≤ O.faults out.new }
    ensures steady { IsTrue (O.steady out.old) → IsTrue (O.steady out.new) }
    ensures ok { OnOk result (GetsTexts (S.view shelf.old) (S.view shelf.new) slot (O.taken out.old) (O.taken out.new) lines.now.report.items lines.now.certificate.items) }
    ensures quiet { OnOk result ((O.faults out.new ≡ O.faults out.old) × ((S.view shelf.new).faults_out ≡ (S.view shelf.old).faults_out)) }
    ensures err { IfErr result (λ e. GetsCut e (S.view shelf.old) (S.view shelf.new) slot (O.taken out.old) (O.taken out.new)
        (stand_beside lines.now.report.items lines.now.certificate.items (mark_of lines.now.said.verdict))) }
    ensures stopped { IfErr result (StoppedBoth (S.view shelf.old) (S.view shelf.new)
        (stream (O.faults out.old) (O.taken out.old) (O.steady out.old)) (stream (O.faults out.new) (O.taken out.new) (O.steady out.new))) }
{
    put_line(out, &lines.report)?;
    put_beside(shelf, slot, &lines.certificate)
}

/// Takes one more instant, writes its two lines, and tells the board.
fn put_instant<S: Shelf, O: Sink>(
    alloc: Global,
    shelf: &mut S,
    slot: u32,
    out: &mut O,
    session: &mut Session<'_>,
    model: &Sound<'_>,
    board: &mut Board,
    instant: &Instant,
) -> Result<(), Cause>
    requires writer { IsWriter (S.view shelf.old) slot }
    requires later { IfSome (last_of session.old) (λ t. t <ℤ instant.now.time) }
    requires few { stepped_of session.old < 2 ^ 64 - 1 }
    requires model { model.now.view.bytes.now ≡ image_of session.old }
    requires size { unsigned_abs instant.now.time ≤ 10 ^ 24 }
    ensures keeps { WritesOn (S.view shelf.old) (S.view shelf.new) slot }
    ensures later { O.faults out.old ≤ O.faults out.new }
    ensures steady { IsTrue (O.steady out.old) → IsTrue (O.steady out.new) }
    ensures last { OnOk result (last_of session.new ≡ Some instant.now.time) }
    ensures stepped { OnOk result (stepped_of session.new ≡ stepped_of session.old + 1) }
    ensures image { image_of session.new ≡ image_of session.old }
    ensures quiet { OnOk result ((O.faults out.new ≡ O.faults out.old) × ((S.view shelf.new).faults_out ≡ (S.view shelf.old).faults_out)) }
    ensures ok { OnOk result ((past : List Moment) (verdicts : List Judgement) (certificate : List Record) (window : List Moment)
        → HasWalked session.old past verdicts → IsRising (reverse (instant.now ∷ past)) → AreExactLines (wheel_of session.old) past verdicts certificate window
        → GetsLines (wheel_of session.old) session.new (S.view shelf.old) (S.view shelf.new) slot (O.taken out.old) (O.taken out.new)
        (map (λ tap. (⟦<dyn Tap as Tap>⟧ tap.vtable).meaning tap.value) board.old.taps.items)
        (map (λ tap. (⟦<dyn Tap as Tap>⟧ tap.vtable).meaning tap.value) board.new.taps.items) instant.now past verdicts certificate) }
    ensures untold { IsErrOf result Cause.WriteFault → (map (λ tap. (⟦<dyn Tap as Tap>⟧ tap.vtable).meaning tap.value) board.new.taps.items)
        ≡ (map (λ tap. (⟦<dyn Tap as Tap>⟧ tap.vtable).meaning tap.value) board.old.taps.items) }
    ensures err { IfErr result (λ e. (past : List Moment) (verdicts : List Judgement) (certificate : List Record) (window : List Moment)
        → HasWalked session.old past verdicts → IsRising (reverse (instant.now ∷ past)) → AreExactLines (wheel_of session.old) past verdicts certificate window
        → ((e ≡ Cause.Memory) × GetsTexts (S.view shelf.old) (S.view shelf.new) slot (O.taken out.old) (O.taken out.new) [] [])
        ⊎ GetsCutLines e (wheel_of session.old) session.new (S.view shelf.old) (S.view shelf.new) slot (O.taken out.old) (O.taken out.new) instant.now past verdicts certificate) }
    ensures stopped { IfErr result (StoppedBoth (S.view shelf.old) (S.view shelf.new)
        (stream (O.faults out.old) (O.taken out.old) (O.steady out.old)) (stream (O.faults out.new) (O.taken out.new) (O.steady out.new))) }
{
    let lines = match both_lines(alloc, session, model, instant) {
        Ok(lines) => lines,
        Err(Memory) => return Err(Cause::Memory),
    };
    put_lines(shelf, slot, out, &lines)?;
    match board.tell(&lines.said) {
        Ok(()) => Ok(()),
        Err(Memory) => Err(Cause::Memory),
    }
}

/// Writes the report of instants whose times rise on out, and its exact certificate into the file of a slot: after each line the one
/// beside it. It asks a fresh session over a sound image, and that image.
pub fn put_both<S: Shelf, O: Sink>(
    alloc: Global,
    shelf: &mut S,
    slot: u32,
    out: &mut O,
    session: &mut Session<'_>,
    model: &Sound<'_>,
    board: &mut Board,
    instants: &[Instant],
) -> Result<(), Cause>
    requires writer { IsWriter (S.view shelf.old) slot }
    requires wheel { IsWheel (wheel_of session.old) }
    requires walked { HasWalked session.old [] [] }
    requires fresh { last_of session.old ≡ None }
    requires none { stepped_of session.old ≡ 0 }
    requires model { model.now.view.bytes.now ≡ image_of session.old }
    requires rising { IsRising instants.now }
    requires sizes { AreWithin (10 ^ 24) instants.now }
    ensures keeps { WritesOn (S.view shelf.old) (S.view shelf.new) slot }
    ensures later { O.faults out.old ≤ O.faults out.new }
    ensures steady { IsTrue (O.steady out.old) → IsTrue (O.steady out.new) }
    ensures quiet { OnOk result ((O.faults out.new ≡ O.faults out.old) × ((S.view shelf.new).faults_out ≡ (S.view shelf.old).faults_out)) }
    ensures ok { OnOk result (GetsBoth (wheel_of session.old) instants.now (S.view shelf.old) (S.view shelf.new) slot (O.taken out.old) (O.taken out.new)
        (map (λ tap. (⟦<dyn Tap as Tap>⟧ tap.vtable).meaning tap.value) board.old.taps.items)
        (map (λ tap. (⟦<dyn Tap as Tap>⟧ tap.vtable).meaning tap.value) board.new.taps.items)) }
    ensures err { IfErr result (λ e. GetsBothFront e (wheel_of session.old) instants.now (S.view shelf.old) (S.view shelf.new) slot (O.taken out.old) (O.taken out.new)
        (map (λ tap. (⟦<dyn Tap as Tap>⟧ tap.vtable).meaning tap.value) board.old.taps.items)
        (map (λ tap. (⟦<dyn Tap as Tap>⟧ tap.vtable).meaning tap.value) board.new.taps.items)) }
    ensures stopped { IfErr result (StoppedBoth (S.view shelf.old) (S.view shelf.new)
        (stream (O.faults out.old) (O.taken out.old) (O.steady out.old)) (stream (O.faults out.new) (O.taken out.new) (O.steady out.new))) }
{
    for instant in instants {
        put_instant(alloc, shelf, slot, out, session, model, board, instant)?;
    }
    Ok(())
}
