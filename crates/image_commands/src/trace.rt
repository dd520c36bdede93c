//! The command `trace`.
ghost use Rattle.std.specs.Prelude.{[], None};
ghost use Rattle.command_words.specs.Options.{options_of};
ghost use Rattle.run_ends.specs.Serving.{Served, stream};
ghost use Rattle.image_commands.specs.Trace.{IsTrace};

use crate::images::{view_of, watched_wheel};
use crate::put::put_trace;
use command_words::Options;
use named_captures::load_clean;
use run_ends::{Cause, Done};
use run_files::load;
use shelf_io::{Shelf, Sink};
use std::alloc::Global;
use wheel_types::Memory;

/// Walks the table of one file's image over the capture of another, which is to end clean. The image keeps its layout; whether it holds
/// the table of its wheel is not asked. On out comes a line for each instant, `INDEX TIME SHAPE state Q`, with the state after it.
pub fn trace_file<S: Shelf, O: Sink>(
    alloc: Global,
    image: &str,
    capture: &str,
    options: Options<'_>,
    shelf: &mut S,
    out: &mut O,
) -> Result<Done, Cause>
    ensures { Served (IsTrace (S.view shelf.old) image.now capture.now (options_of options.entry)) None (S.view shelf.old) (S.view shelf.new)
        (stream (O.faults out.old) (O.taken out.old) (O.steady out.old)) (stream (O.faults out.new) (O.taken out.new) (O.steady out.new)) [] result }
{
    let bytes = load(alloc, shelf, image)?;
    let view = view_of(&bytes)?;
    let watched = match watched_wheel(alloc, &view) {
        Ok(watched) => watched,
        Err(Memory) => return Err(Cause::Memory),
    };
    let capture = load_clean(
        alloc,
        shelf,
        capture,
        options,
        &watched.wheel,
        &watched.edges,
    )?;
    put_trace(alloc, out, view, capture.instants.as_slice())?;
    Ok(Done::Whole)
}
