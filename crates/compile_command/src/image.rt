//! The image of a wheel, and its file.
ghost use Rattle.std.specs.Prelude.{[], Some, IfOk, IfErr, OnOk};
ghost use Rattle.cam_ranges.specs.Places.{HasTooMany};
ghost use Rattle.run_ends.specs.Serving.{Served, Stream};
ghost use Rattle.table_commands.specs.States.{given_limit};
ghost use Rattle.table_images.specs.Images.{IsCompiled};
ghost use Rattle.compile_command.specs.Compile.{HasNoImage, IsCompile};

use run_ends::{Cause, Done, Limit, make_file};
use run_files::load_wheel;
use shelf_io::Shelf;
use std::alloc::Global;
use table_images::{CompileFault, compile};
use wheel_types::Wheel;

/// The limit on states that is given: a table numbers its states by two bytes.
const MOST_STATES: u32 = 65_535;

/// The image of a wheel.
///
/// # Errors
/// In this order: `Limit::Places` past 16,384 places; `Limit::States` with the limit that holds, where the wheel's family has more
/// states than that; `Memory`.
pub fn image_of(alloc: Global, wheel: &Wheel) -> Result<Vec<u8>, Cause>
    ensures image { IfOk result (λ bytes. IsCompiled wheel.now.parts given_limit bytes.items) }
    ensures few { OnOk result (¬ HasTooMany wheel.now.parts) }
    ensures none { IfErr result (HasNoImage wheel.now.parts) }
{
    match compile(alloc, wheel, MOST_STATES) {
        Ok(bytes) => Ok(bytes),
        Err(CompileFault::TooManyPlaces) => Err(Cause::Limit(Limit::Places)),
        Err(CompileFault::TooLarge { limit }) => Err(Cause::Limit(Limit::States { limit })),
        Err(CompileFault::Memory) => Err(Cause::Memory),
    }
}

/// Compiles the wheel of one file into an image, which another file gets. That one is created only when the image's bytes are made;
/// where writing stops it has a front of them. Nothing is written on out.
pub fn compile_file<S: Shelf>(
    alloc: Global,
    wheel: &str,
    image: &str,
    shelf: &mut S,
) -> Result<Done, Cause>
    ensures { (out : Stream) → Served (IsCompile (S.view shelf.old) wheel.now image.now) (Some image.now) (S.view shelf.old) (S.view shelf.new) out out [] result }
{
    let wheel = load_wheel(alloc, shelf, wheel)?;
    let bytes = image_of(alloc, &wheel)?;
    make_file(shelf, image, &bytes)?;
    Ok(Done::Whole)
}
