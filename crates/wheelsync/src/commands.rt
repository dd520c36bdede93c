//! Serving a command.
ghost use Rattle.std.specs.Prelude.{◌≡◌, None, Err, map, option_and_then, string_bytes};
ghost use Rattle.command_words.specs.Words.{AreApart, AsksGaps, command_of, order_of, writes_of};
ghost use Rattle.run_ends.specs.Serving.{Served, stream};
ghost use Rattle.wheelsync.specs.Commands.{IsCommand, IsWork};

use crate::import::import;
use crate::replay::replay_with;
use certified_replay::{Ended, without_tails};
use check_command::check_files;
use command_words::{Command, read_command};
use compile_command::compile_file;
use image_commands::{audit_file, trace_file};
use run_ends::{Cause, hand_on};
use shelf_io::{Shelf, Sink};
use std::alloc::Global;
use stimulus_commands::{self_test, stim_file};
use table_commands::size;
use tap_board::Tap;

/// Does the work of a command. The names and the gaps that it asks for are those that `read_command` gives.
fn do_command<S: Shelf, O: Sink>(
    alloc: Global,
    command: Command<'_>,
    shelf: &mut S,
    out: &mut O,
    taps: Vec<Box<dyn Tap>>,
) -> Ended
    requires apart { AreApart (order_of command) }
    requires gaps { AsksGaps (order_of command) }
    ensures { Served (IsCommand (S.view shelf.old) (map (λ tap. (⟦<dyn Tap as Tap>⟧ tap.vtable).meaning tap.value) taps.items) (order_of command.entry))
        (writes_of (order_of command.entry)) (S.view shelf.old) (S.view shelf.new)
        (stream (O.faults out.old) (O.taken out.old) (O.steady out.old)) (stream (O.faults out.new) (O.taken out.new) (O.steady out.new)) result.tails.items result.end }
{
    match command {
        Command::Replay {
            model,
            capture,
            cert,
            options,
        } => replay_with(alloc, model, capture, cert, options, shelf, out, taps),
        Command::Import { source, name } => {
            without_tails(alloc, import(alloc, source, name, shelf, out))
        }
        Command::Size { wheel } => without_tails(alloc, size(alloc, wheel, shelf, out)),
        Command::Compile { wheel, image } => {
            without_tails(alloc, compile_file(alloc, wheel, image, shelf))
        }
        Command::Check {
            wheel,
            capture,
            report,
            cert,
            options,
        } => {
            let end = check_files(alloc, wheel, capture, report, cert, options, shelf, out);
            without_tails(alloc, end)
        }
        Command::Audit { image } => without_tails(alloc, audit_file(alloc, image, shelf, out)),
        Command::Trace {
            image,
            capture,
            options,
        } => {
            let end = trace_file(alloc, image, capture, options, shelf, out);
            without_tails(alloc, end)
        }
        Command::Stim {
            wheel,
            form,
            seed,
            gaps,
            file,
        } => {
            let end = stim_file(alloc, wheel, form, seed, gaps, file, shelf);
            without_tails(alloc, end)
        }
        Command::SelfTest { wheel, seed, gaps } => {
            without_tails(alloc, self_test(alloc, wheel, seed, gaps, shelf, out))
        }
    }
}

/// Serves the words, but for the line and the tails on notes. Out is handed on at the end of a command. The taps are told of a replay whose
/// capture was opened, and closed at its end; in all else they are dropped untouched.
pub fn serve<S: Shelf, O: Sink>(
    alloc: Global,
    words: &[String],
    shelf: &mut S,
    out: &mut O,
    taps: Vec<Box<dyn Tap>>,
) -> Ended
    ensures untouched { command_of (map string_bytes words.now) ≡ None → S.view shelf.new ≡ S.view shelf.old }
    ensures served { Served (IsWork (S.view shelf.old) (map (λ tap. (⟦<dyn Tap as Tap>⟧ tap.vtable).meaning tap.value) taps.items) (command_of (map string_bytes words.now)))
        (option_and_then writes_of (command_of (map string_bytes words.now))) (S.view shelf.old) (S.view shelf.new)
        (stream (O.faults out.old) (O.taken out.old) (O.steady out.old)) (stream (O.faults out.new) (O.taken out.new) (O.steady out.new)) result.tails.items result.end }
    ensures handed { ¬ (result.end ≡ Err Cause.WriteFault) → O.waiting out.old ≡ 0 → O.waiting out.new ≡ 0 }
{
    let Some(command) = read_command(words) else {
        return without_tails(alloc, Err(Cause::Usage));
    };
    let Ended { end, tails } = do_command(alloc, command, shelf, out, taps);
    Ended {
        end: hand_on(end, out),
        tails,
    }
}
