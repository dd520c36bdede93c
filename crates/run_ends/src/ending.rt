//! The end of a run: out is handed on, notes gets the line and the tails after it, and there is a status.
ghost use Rattle.std.specs.Prelude.{◌≡◌, ◌≤◌, Err, IsTrue};
ghost use Rattle.run_ends.specs.Statuses.{status_of};
ghost use Rattle.run_ends.specs.Finishing.{HasNoted, FailedNote, notes_text};
ghost use Rattle.run_ends.specs.Serving.{Handed, stream};

use crate::lines::note;
use crate::{Cause, Done, Status};
use shelf_io::{PutFault, Sink, write_all};

/// The status of an end.
fn status(end: &Result<Done, Cause>) -> Status
    ensures { result ≡ status_of end.now }
{
    match end {
        Ok(Done::Whole) => Status::Done,
        Ok(Done::No) => Status::No,
        Err(Cause::Usage) => Status::Usage,
        Err(Cause::Refused(_)) => Status::Refused,
        Err(Cause::Limit(_)) => Status::Limit,
        Err(Cause::ReadFault) => Status::ReadFault,
        Err(Cause::WriteFault) => Status::WriteFault,
        Err(Cause::Memory) => Status::Memory,
    }
}

/// Hands on what waits for out at the end of work. Where that fails the work ends with a write fault.
pub fn hand_on<O: Sink>(end: Result<Done, Cause>, out: &mut O) -> Result<Done, Cause>
    ensures handed { Handed (stream (O.faults out.old) (O.taken out.old) (O.steady out.old)) (stream (O.faults out.new) (O.taken out.new) (O.steady out.new)) end result }
    ensures all { ¬ (result ≡ Err Cause.WriteFault) → O.waiting out.new ≡ 0 }
{
    match out.hand_on() {
        Ok(()) => end,
        Err(_) => Err(Cause::WriteFault),
    }
}

/// Writes a text on notes, and gives the status that is due where it went out whole.
fn note_down<N: Sink>(text: &[u8], due: Status, notes: &mut N) -> Status
    ensures later { N.faults notes.old ≤ N.faults notes.new }
    ensures quiet { ¬ (result ≡ Status.WriteFault) → N.faults notes.new ≡ N.faults notes.old }
    ensures calm { IsTrue (N.steady notes.old) → N.faults notes.new ≡ N.faults notes.old }
    ensures noted { HasNoted (FailedNote (N.faults notes.old) (N.faults notes.new) (IsTrue (N.steady notes.old))) (N.taken notes.old) (N.taken notes.new) text.now due result }
{
    match write_all(notes, text) {
        Ok(()) => due,
        Err(PutFault::Failed { written: _ }) => Status::WriteFault,
        Err(PutFault::Memory { written: _ }) => Status::Memory,
    }
}

/// Writes the line of a cause on notes, and then the tails, and gives the status at the end. A write that fails turns the status into a
/// write fault, and one that wants memory into want of memory; nothing more is written then.
pub fn finish<N: Sink>(end: Result<Done, Cause>, tails: &[u8], notes: &mut N) -> Status
    ensures later { N.faults notes.old ≤ N.faults notes.new }
    ensures quiet { ¬ (result ≡ Status.WriteFault) → N.faults notes.new ≡ N.faults notes.old }
    ensures calm { IsTrue (N.steady notes.old) → N.faults notes.new ≡ N.faults notes.old }
    ensures finished { HasNoted (FailedNote (N.faults notes.old) (N.faults notes.new) (IsTrue (N.steady notes.old))) (N.taken notes.old) (N.taken notes.new) (notes_text end tails.now) (status_of end) result }
{
    let due = status(&end);
    let Err(cause) = end else {
        return note_down(tails, due, notes);
    };
    let line = note(cause);
    match write_all(notes, line.as_str().as_bytes()) {
        Ok(()) => note_down(tails, due, notes),
        Err(PutFault::Failed { .. }) => Status::WriteFault,
        Err(PutFault::Memory { .. }) => Status::Memory,
    }
}
