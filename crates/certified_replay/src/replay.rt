//! The command `replay` with a certificate.
ghost use Rattle.std.specs.Prelude.{◌≡◌, ◌≢◌, Some, List, ℕ, map};
ghost use Rattle.shelf_traits.specs.Shelf.{IsReader, View};
ghost use Rattle.edge_angles.specs.EdgeTables.{AreEdgesOf};
ghost use Rattle.image_layout.specs.Fields.{wheel_parts_of};
ghost use Rattle.command_words.specs.Options.{options_of};
ghost use Rattle.run_ends.specs.Serving.{Served, Tells, stream};
ghost use Rattle.run_ends.specs.Stages.{Past};
ghost use Rattle.tap_board.specs.Meanings.{told_all, tails_after};
ghost use Rattle.certified_replay.specs.Openings.{HasOpened};
ghost use Rattle.certified_replay.specs.Certified.{IsCertified, IsCertifiedPast};

use crate::closing::{Ended, close, without_tails};
use crate::open::{open_file, take_capture};
use crate::put::put_both;
use command_words::Options;
use image_audit::Sound;
use image_commands::{Watched, watched_wheel};
use replay_core::Session;
use run_ends::{Cause, Done, create_file};
use run_files::ended;
use shelf_io::{Shelf, Sink};
use std::alloc::Global;
use table_models::{load_image, sound_image};
use tap_board::{Board, Tap};
use wheel_types::Memory;

/// Replays the capture of an open slot by the walk of a sound image's table, writes the certificate beside the report, and tells the board
/// of each line. It asks the image's wheel, and that the capture's file and the certificate's have different names.
fn replay_past<S: Shelf, O: Sink>(
    alloc: Global,
    sound: &Sound<'_>,
    watched: Watched,
    source: u32,
    cert: &str,
    options: Options<'_>,
    shelf: &mut S,
    out: &mut O,
    board: &mut Board,
) -> Result<Done, Cause>
    requires wheel { wheel_parts_of sound.now.view.bytes.now ≡ watched.wheel.parts }
    requires edges { AreEdgesOf watched.wheel.parts watched.edges }
    requires reader { IsReader (S.view shelf.old) source }
    ensures { (v : View) (name : List ℕ) → HasOpened v (S.view shelf.old) name source → name ≢ cert.now
        → Tells (Past name (IsCertifiedPast v watched.wheel.parts name cert.now (options_of options.entry))) (Some cert.now) v (S.view shelf.new)
        (stream (O.faults out.old) (O.taken out.old) (O.steady out.old)) (stream (O.faults out.new) (O.taken out.new) (O.steady out.new))
        (λ marks. (map (λ tap. (⟦<dyn Tap as Tap>⟧ tap.vtable).meaning tap.value) board.new.taps.items)
        ≡ told_all marks (map (λ tap. (⟦<dyn Tap as Tap>⟧ tap.vtable).meaning tap.value) board.old.taps.items)) result }
{
    let Watched { wheel, edges } = watched;
    let slot = create_file(shelf, cert)?;
    let capture = take_capture(alloc, shelf, source, options, &wheel, &edges)?;
    let mut session = Session::new(sound.view().again());
    put_both(
        alloc,
        shelf,
        slot,
        out,
        &mut session,
        sound,
        board,
        capture.instants.as_slice(),
    )?;
    ended(capture.end)
}

/// Replays the capture of one file by the walk of a table, that of another file's image, which is audited, or the compiled one of its wheel;
/// and writes the exact certificate of the report into a third. That file is
/// created once the capture is opened, and before its first byte is read. After each line of the report on out comes the line of the
/// certificate beside it, and then the taps are told. Where the capture has a fault, both have the lines of the instants before it. The
/// taps are closed at the end, if the capture was opened, and else dropped untouched. It asks that the capture's file and the certificate's
/// have different names.
pub fn replay_certified<S: Shelf, O: Sink>(
    alloc: Global,
    model: &str,
    capture: &str,
    cert: &str,
    options: Options<'_>,
    shelf: &mut S,
    out: &mut O,
    taps: Vec<Box<dyn Tap>>,
) -> Ended
    requires apart { capture.now ≢ cert.now }
    ensures { Served (IsCertified (S.view shelf.old) (tails_after (map (λ tap. (⟦<dyn Tap as Tap>⟧ tap.vtable).meaning tap.value) taps.items))
        model.now capture.now cert.now (options_of options.entry)) (Some cert.now) (S.view shelf.old) (S.view shelf.new)
        (stream (O.faults out.old) (O.taken out.old) (O.steady out.old)) (stream (O.faults out.new) (O.taken out.new) (O.steady out.new)) result.tails.items result.end }
{
    let image = match load_image(alloc, shelf, model) {
        Ok(image) => image,
        Err(cause) => return without_tails(alloc, Err(cause)),
    };
    let sound = match sound_image(alloc, &image) {
        Ok(sound) => sound,
        Err(cause) => return without_tails(alloc, Err(cause)),
    };
    let watched = match watched_wheel(alloc, sound.view()) {
        Ok(watched) => watched,
        Err(Memory) => return without_tails(alloc, Err(Cause::Memory)),
    };
    let source = match open_file(shelf, capture) {
        Ok(source) => source,
        Err(cause) => return without_tails(alloc, Err(cause)),
    };
    let mut board = Board::new(taps);
    let end = replay_past(
        alloc, &sound, watched, source, cert, options, shelf, out, &mut board,
    );
    close(alloc, board, end)
}
