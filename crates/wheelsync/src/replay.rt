//! The command `replay`.
ghost use Rattle.std.specs.Prelude.{◌≡◌, ◌≢◌, ℕ, List, None, IfSome, map};
ghost use Rattle.std.specs.Option.{option_map};
ghost use Rattle.shelf_traits.specs.Shelf.{IsReader, View};
ghost use Rattle.edge_angles.specs.EdgeTables.{AreEdgesOf};
ghost use Rattle.image_layout.specs.Fields.{wheel_parts_of};
ghost use Rattle.command_words.specs.Options.{options_of};
ghost use Rattle.run_ends.specs.Serving.{Served, Tells, stream};
ghost use Rattle.run_ends.specs.Stages.{Past};
ghost use Rattle.tap_board.specs.Meanings.{told_all, tails_after};
ghost use Rattle.certified_replay.specs.Openings.{HasOpened};
ghost use Rattle.wheelsync.specs.Replay.{IsReplay, IsReplayed, IsReplayPast};

use crate::put_report;
use certified_replay::{Ended, close, open_file, replay_certified, take_capture, without_tails};
use command_words::Options;
use image_audit::Sound;
use image_commands::{Watched, watched_wheel};
use replay_core::Session;
use run_ends::{Cause, Done};
use run_files::ended;
use shelf_io::{Shelf, Sink};
use std::alloc::Global;
use table_models::{load_image, sound_image};
use tap_board::{Board, Tap};
use wheel_types::Memory;

/// Replays the capture of an open slot by the walk of a sound image's table, and tells the board of each line. It asks the image's wheel.
fn replay_past<S: Shelf, O: Sink>(
    alloc: Global,
    sound: &Sound<'_>,
    watched: Watched,
    source: u32,
    options: Options<'_>,
    shelf: &mut S,
    out: &mut O,
    board: &mut Board,
) -> Result<Done, Cause>
    requires wheel { wheel_parts_of sound.now.view.bytes.now ≡ watched.wheel.parts }
    requires edges { AreEdgesOf watched.wheel.parts watched.edges }
    requires reader { IsReader (S.view shelf.old) source }
    ensures { (v : View) (name : List ℕ) → HasOpened v (S.view shelf.old) name source
        → Tells (Past name (IsReplayPast v watched.wheel.parts name (options_of options.entry))) None v (S.view shelf.new)
        (stream (O.faults out.old) (O.taken out.old) (O.steady out.old)) (stream (O.faults out.new) (O.taken out.new) (O.steady out.new))
        (λ marks. (map (λ tap. (⟦<dyn Tap as Tap>⟧ tap.vtable).meaning tap.value) board.new.taps.items)
        ≡ told_all marks (map (λ tap. (⟦<dyn Tap as Tap>⟧ tap.vtable).meaning tap.value) board.old.taps.items)) result }
{
    let Watched { wheel, edges } = watched;
    let capture = take_capture(alloc, shelf, source, options, &wheel, &edges)?;
    let mut session = Session::new(sound.view().again());
    put_report(alloc, out, &mut session, board, capture.instants.as_slice())?;
    ended(capture.end)
}

/// Replays the capture of one file by the walk of a table: that of another file's image, which is audited, or the compiled one of its wheel.
/// Where the capture has a fault, the report of the instants before it is written all the same. The taps are told of each line past it, and
/// closed at the end, if the capture was opened; and else dropped untouched.
pub fn replay<S: Shelf, O: Sink>(
    alloc: Global,
    model: &str,
    capture: &str,
    options: Options<'_>,
    shelf: &mut S,
    out: &mut O,
    taps: Vec<Box<dyn Tap>>,
) -> Ended
    ensures { Served (IsReplay (S.view shelf.old) (tails_after (map (λ tap. (⟦<dyn Tap as Tap>⟧ tap.vtable).meaning tap.value) taps.items))
        model.now capture.now (options_of options.entry)) None (S.view shelf.old) (S.view shelf.new)
        (stream (O.faults out.old) (O.taken out.old) (O.steady out.old)) (stream (O.faults out.new) (O.taken out.new) (O.steady out.new)) result.tails.items result.end }
{
    let image = match load_image(alloc, shelf, model) {
        Ok(image) => image,
        Err(cause) => return without_tails(alloc, Err(cause)),
    };
    let sound = match sound_image(alloc, &image) {
        Ok(sound) => sound,
        Err(cause) => return without_tails(alloc, Err(cause)),
    };
    let watched = match watched_wheel(alloc, sound.view()) {
        Ok(watched) => watched,
        Err(Memory) => return without_tails(alloc, Err(Cause::Memory)),
    };
    let source = match open_file(shelf, capture) {
        Ok(source) => source,
        Err(cause) => return without_tails(alloc, Err(cause)),
    };
    let mut board = Board::new(taps);
    let end = replay_past(
        alloc, &sound, watched, source, options, shelf, out, &mut board,
    );
    close(alloc, board, end)
}

/// Replays the capture of one file over the model of another; where a third is given, it gets the certificate of the report. It asks that this
/// one's name and the capture's differ.
pub fn replay_with<S: Shelf, O: Sink>(
    alloc: Global,
    model: &str,
    capture: &str,
    cert: Option<&str>,
    options: Options<'_>,
    shelf: &mut S,
    out: &mut O,
    taps: Vec<Box<dyn Tap>>,
) -> Ended
    requires apart { IfSome cert (λ cert. capture.now ≢ cert.now) }
    ensures { Served (IsReplayed (S.view shelf.old) (tails_after (map (λ tap. (⟦<dyn Tap as Tap>⟧ tap.vtable).meaning tap.value) taps.items))
        model.now capture.now (option_map (λ s. s.now) cert.entry) (options_of options.entry)) (option_map (λ s. s.now) cert.entry) (S.view shelf.old) (S.view shelf.new)
        (stream (O.faults out.old) (O.taken out.old) (O.steady out.old)) (stream (O.faults out.new) (O.taken out.new) (O.steady out.new)) result.tails.items result.end }
{
    match cert {
        None => replay(alloc, model, capture, options, shelf, out, taps),
        Some(cert) => replay_certified(alloc, model, capture, cert, options, shelf, out, taps),
    }
}
