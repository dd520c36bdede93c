//! The program: `main` makes the files and streams of the system and hands them to `run`, which does all that the program does.
#![tactic(auto)]

ghost use Rattle.std.specs.Prelude.{◌≡◌, ◌≤◌, OnOk, IsErrOf};
ghost use Rattle.std.specs.Io.KnownBytes.{Appends};
ghost use Rattle.shelf_traits.specs.Count.{Rose};

mod help;

use help::answer;
use run_ends::{Cause, Done, finish, hand_on};
use shelf_io::{PutFault, RealShelf, Sink, StdSink, write_all};
use std::alloc::AllocError;
use std::env;
use std::io::{ErrorKind, IsTerminal};
use std::process::ExitCode;
use tap_board::{FirstFix, Tally};
use wheelsync::{Status, Tap, run};

/// The words after the program's name, or the status where there are none to be had.
fn words_of(rt: &HostRuntime) -> Result<Vec<String>, Status> {
    let args = match env::args(rt) {
        Ok(args) => args,
        Err(fault) if fault.kind() == ErrorKind::OutOfMemory => return Err(Status::Memory),
        Err(_) => return Err(Status::Usage),
    };
    match args.skip(1).collect(rt.alloc()) {
        Ok(words) => Ok(words),
        Err(AllocError) => Err(Status::Memory),
    }
}

/// Writes a page on out.
fn write_page<O: Sink>(page: &[u8], out: &mut O) -> Result<Done, Cause>
    ensures whole { OnOk result (Appends (O.taken out.old) (O.taken out.new) page.now) }
    ensures later { O.faults out.old ≤ O.faults out.new }
    ensures write { IsErrOf result Cause.WriteFault → Rose (O.faults out.old) (O.faults out.new) }
{
    match write_all(out, page) {
        Ok(()) => Ok(Done::Whole),
        Err(PutFault::Failed { .. }) => Err(Cause::WriteFault),
        Err(PutFault::Memory { .. }) => Err(Cause::Memory),
    }
}

/// Writes a page on out, and hands it on.
fn show<O: Sink>(page: &[u8], out: &mut O) -> Result<Done, Cause>
    ensures whole { OnOk result (Appends (O.taken out.old) (O.taken out.new) page.now) }
    ensures handed { OnOk result (O.waiting out.new ≡ 0) }
    ensures write { IsErrOf result Cause.WriteFault → Rose (O.faults out.old) (O.faults out.new) }
{
    let end = write_page(page, out);
    hand_on(end, out)
}

/// Serves words over the files of the system with the taps of the program, a tally and a first fix. An error is want of memory for these.
fn serve_with_taps<O: Sink, N: Sink>(
    rt: &HostRuntime,
    words: &[String],
    out: &mut O,
    notes: &mut N,
) -> Result<Status, AllocError> {
    let mut taps: Vec<Box<dyn Tap>> = Vec::new(rt.alloc());
    taps.push(Box::new(rt.alloc(), Tally::new(rt.alloc()))?)?;
    taps.push(Box::new(rt.alloc(), FirstFix::new(rt.alloc()))?)?;
    let mut shelf = RealShelf::new(rt.alloc(), rt);
    Ok(run(rt.alloc(), words, &mut shelf, out, notes, taps))
}

fn main(rt: HostRuntime) -> ExitCode {
    let words = match words_of(&rt) {
        Ok(words) => words,
        Err(status) => return ExitCode::from(status as u8),
    };
    let stdout = rt.stdout();
    let is_terminal = stdout.is_terminal();
    let mut out = StdSink::new(rt.alloc(), stdout, is_terminal);
    let mut notes = StdSink::new(rt.alloc(), rt.stderr(), true);
    let status = match answer(&words) {
        Some(page) => finish(show(page, &mut out), &[], &mut notes),
        None => match serve_with_taps(&rt, &words, &mut out, &mut notes) {
            Ok(status) => status,
            Err(AllocError) => Status::Memory,
        },
    };
    ExitCode::from(status as u8)
}
