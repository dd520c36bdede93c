//! The top call.
ghost use Rattle.std.specs.Prelude.{◌≡◌, None, IsTrue, IfSome, map, option_and_then, string_bytes};
ghost use Rattle.command_words.specs.Words.{command_of, writes_of};
ghost use Rattle.run_ends.specs.Serving.{Ran, NoneFailed, WentOut, stream};
ghost use Rattle.wheelsync.specs.Complete.{IsDue};
ghost use Rattle.wheelsync.specs.Commands.{IsWork};

use crate::{Ended, Tap, serve};
use run_ends::{Status, finish};
use shelf_io::{Shelf, Sink};
use std::alloc::Global;

/// Serves the words after the program's name, and gives the status with which the program ends.
///
/// `replay MODEL CAPTURE` reads a wheel file and a capture, and writes a report line for each instant of the capture on `out`. A
/// capture is a value change dump where its first byte past white space is a dollar sign, and else CSV. Where it has a fault, `out`
/// has the lines of the instants whose stamps closed before it, `notes` has the fault's line, and the status is `Refused`.
/// With `--cert FILE` the file gets the exact certificate of the report, a line after each line of the report. It is created once the
/// capture is opened and before its first byte is read; where writing stops it has a front of the certificate, if it was created.
/// `import SOURCE NAME` reads a C source, and writes the slots of its table of that name as a line of a wheel file. `size WHEEL` reads
/// a wheel file, and writes how many places, cuts and states the wheel's table has. `compile WHEEL IMAGE` reads a wheel file, and the file
/// IMAGE gets the image of the wheel's table. IMAGE is created once the image's bytes are made: where the wheel is refused, or passes a
/// limit, no file is created or changed, and where writing stops IMAGE has a front of the image, if it was created.
/// `check WHEEL CAPTURE REPORT CERT` reads a wheel file, a capture that is to end clean, a report and a certificate, and writes `yes` where
/// the certificate is valid, and else `no` with the first instant that has a broken rule and the number of its first one; the status is
/// then `No`. On `notes` comes one line, where the status is neither `Done` nor `No`.
///
/// The taps are told of each line of a replay, once it was written and the certificate's line beside it. Where the capture was opened they are
/// closed at the end, and their tails come on `notes` past the line, but at want of memory. In all other commands, and where the capture
/// was not opened, they are dropped untouched.
pub fn run<S: Shelf, O: Sink, N: Sink>(
    alloc: Global,
    words: &[String],
    shelf: &mut S,
    out: &mut O,
    notes: &mut N,
    taps: Vec<Box<dyn Tap>>,
) -> Status
    // Some work that the words' relation allows is what the shelf, out and notes show of it, and the status is that of its end.
    ensures ran { Ran (IsWork (S.view shelf.old) (map (λ tap. (⟦<dyn Tap as Tap>⟧ tap.vtable).meaning tap.value) taps.items) (command_of (map string_bytes words.now)))
        (option_and_then writes_of (command_of (map string_bytes words.now))) (S.view shelf.old) (S.view shelf.new)
        (stream (O.faults out.old) (O.taken out.old) (O.steady out.old)) (stream (O.faults out.new) (O.taken out.new) (O.steady out.new))
        (stream (N.faults notes.old) (N.taken notes.old) (N.steady notes.old)) (stream (N.faults notes.new) (N.taken notes.new) (N.steady notes.new)) result }

    // Usage comes where the words are no command, and nothing is opened then.
    ensures usage { result ≡ Status.Usage → command_of (map string_bytes words.now) ≡ None }
    ensures untouched { command_of (map string_bytes words.now) ≡ None → S.view shelf.new ≡ S.view shelf.old }

    // Where the count of out or of notes rose in this call the status says so, and where none did nothing that out took waits.
    ensures settled { WentOut result → (O.faults out.new ≡ O.faults out.old) × (N.faults notes.new ≡ N.faults notes.old) }
    ensures handed { WentOut result → O.waiting out.old ≡ 0 → O.waiting out.new ≡ 0 }

    // Over a steady shelf, with sinks on which no write fails, files that are accepted give Done, and a certificate that is not valid
    // gives No; or memory was wanting.
    ensures complete { IsTrue (S.view shelf.old).tells → IsTrue (S.view shelf.old).steady
        → NoneFailed (stream (O.faults out.old) (O.taken out.old) (O.steady out.old)) (stream (O.faults out.new) (O.taken out.new) (O.steady out.new))
        → NoneFailed (stream (N.faults notes.old) (N.taken notes.old) (N.steady notes.old)) (stream (N.faults notes.new) (N.taken notes.new) (N.steady notes.new))
        → IfSome (command_of (map string_bytes words.now)) (λ order. IsDue (S.view shelf.old).file order result) }
{
    let Ended { end, tails } = serve(alloc, words, shelf, out, taps);
    finish(end, &tails, notes)
}
