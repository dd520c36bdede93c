//! The image of a model.
ghost use Rattle.std.specs.Prelude.{◌≡◌, ◌⊎◌, IfOk, IfErr, IsTrue, ◌↔◌};
ghost use Rattle.wheel_pattern.specs.WheelFile.{MeansWheel, HasFault};
ghost use Rattle.run_ends.specs.Loads.{Loads};
ghost use Rattle.run_ends.specs.Works.{StopsJudge};
ghost use Rattle.table_models.specs.Models.{BeginAsImage, GivesImage, BytesGive, NotWheelGives, HasModelImage, TableGives};

use compile_command::image_of;
use run_ends::{Cause, NoWheel, Refusal};
use run_files::load;
use shelf_io::Shelf;
use std::alloc::Global;
use wheel_pattern::{PatternFault, read_wheel};
use wheel_types::Wheel;

/// Whether the bytes begin as an image does.
fn begins_as_image(bytes: &[u8]) -> bool
    ensures { IsTrue result ↔ BeginAsImage bytes.now }
{
    bytes.starts_with(b"WSYN".as_slice())
}

/// The wheel of a wheel file's bytes.
///
/// # Errors
/// `Refusal::Wheel` with the first fault of bytes that are no wheel file; `Memory`.
fn wheel_of(alloc: Global, bytes: &[u8]) -> Result<Wheel, Cause>
    ensures wheel { IfOk result (λ wheel. MeansWheel bytes.now wheel.parts) }
    ensures gives { IfErr result (StopsJudge (NotWheelGives bytes.now)) }
{
    match read_wheel(alloc, bytes) {
        Ok(wheel) => Ok(wheel),
        Err(fault) => {
            if fault == PatternFault::Memory {
                Err(Cause::Memory)
            } else {
                Err(Cause::Refused(Refusal::Wheel(NoWheel { fault })))
            }
        }
    }
}

/// The image that a model's bytes give: themselves where they begin as an image does, and else the compiled image of the wheel.
///
/// # Errors
/// `Refusal::Wheel` with the first fault of bytes that are neither; `Limit::Places` past 16,384 places; `Limit::States` past the limit on
/// states that holds; `Memory`.
fn image_by(alloc: Global, bytes: Vec<u8>) -> Result<Vec<u8>, Cause>
    ensures image { IfOk result (λ image. GivesImage bytes.items image.items) }
    ensures gives { IfErr result (StopsJudge (BytesGive bytes.items)) }
{
    if begins_as_image(&bytes) {
        return Ok(bytes);
    }
    let wheel = wheel_of(alloc, &bytes)?;
    image_of(alloc, &wheel)
}

/// Reads the image of a model's file: the one that it holds, whatever its bytes say past the first four, or the compiled image of the
/// wheel that it holds.
///
/// # Errors
/// `Refusal::Wheel` with the first fault of a file that is neither an image nor a wheel's; `Limit::Places` past 16,384 places, or
/// `Limit::States` past the limit on states that holds; `ReadFault` where the shelf failed, `Limit::File` past 2^28 bytes, or `Memory`.
pub fn load_image<S: Shelf>(alloc: Global, shelf: &mut S, name: &str) -> Result<Vec<u8>, Cause>
    ensures { Loads (S.view shelf.old) (S.view shelf.old) (S.view shelf.new) name.now (TableGives (S.view shelf.old).file name.now) (λ image. HasModelImage (S.view shelf.old).file name.now image.items) result }
{
    let bytes = load(alloc, shelf, name)?;
    image_by(alloc, bytes)
}
