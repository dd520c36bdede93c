//! The command `audit`.
ghost use Rattle.std.specs.Prelude.{◌≡◌, [], None, Ok, IfOk, IfErr, OnOk, string_bytes};
ghost use Rattle.shelf_traits.specs.Shelf.{View as ShelfView};
ghost use Rattle.table_images.specs.Images.{IsSoundImage};
ghost use Rattle.run_ends.specs.Works.{StopsJudge, Writes};
ghost use Rattle.run_ends.specs.Serving.{Served, stream};
ghost use Rattle.image_commands.specs.Audit.{AuditGives, IsAudited, IsAudit, sound_line};

use crate::images::view_of;
use image_audit::{AuditFault, Sound, audit};
use image_format::View;
use run_ends::{Cause, Done, NotSound, Refusal, put};
use run_files::load;
use shelf_io::{Shelf, Sink};
use std::alloc::{AllocError, Global};
use wheel_pattern::write_wheel;
use wheel_types::Memory;

/// An image that is audited.
///
/// # Errors
/// `Refusal::Audit` with the first difference between the image and the table of its own wheel; `Memory`.
pub fn audit_image<'a>(alloc: Global, view: View<'a>) -> Result<Sound<'a>, Cause>
    ensures sound { OnOk result (IsSoundImage view.entry.bytes.now) }
    ensures view { IfOk result (λ sound. sound.view ≡ view.entry) }
    ensures kinds { IfErr result (StopsJudge (AuditGives view.entry.bytes.now)) }
{
    match audit(alloc, view) {
        Ok(sound) => Ok(sound),
        Err(fault) => {
            if fault == AuditFault::Memory {
                Err(Cause::Memory)
            } else {
                Err(Cause::Refused(Refusal::Audit(NotSound { fault })))
            }
        }
    }
}

/// The line of a sound image.
fn line_of(alloc: Global, view: &View<'_>) -> Result<String, AllocError>
    ensures { IfOk result (λ line. string_bytes line ≡ sound_line view.now.bytes.now) }
{
    let (states, places) = (view.state_count(), view.place_count());
    format!(in alloc; "sound states {states} places {places}\n")
}

/// What is told of a sound image: its line, and the file of its wheel.
///
/// # Errors
/// Want of memory.
fn text_of(alloc: Global, view: &View<'_>) -> Result<Vec<u8>, Memory>
    ensures { IfOk result (λ text. IsAudited view.now.bytes.now text.items (Ok Done.Whole)) }
{
    let wheel = view.wheel(alloc)?;
    let file = write_wheel(alloc, &wheel)?;
    let mut text = line_of(alloc, view)?.into_bytes();
    text.extend_from_slice(&file)?;
    Ok(text)
}

/// Writes what is told of a sound image. It touches no shelf.
fn put_text<O: Sink>(alloc: Global, view: &View<'_>, out: &mut O) -> Result<Done, Cause>
    ensures { (v : ShelfView) → Served (Writes (IsAudited view.now.bytes.now)) None v v
        (stream (O.faults out.old) (O.taken out.old) (O.steady out.old)) (stream (O.faults out.new) (O.taken out.new) (O.steady out.new)) [] result }
{
    let Ok(text) = text_of(alloc, view) else {
        return Err(Cause::Memory);
    };
    put(out, &text)?;
    Ok(Done::Whole)
}

/// Audits the image of one file: whether it keeps its layout, and holds the table of its own wheel. On out comes `sound states Q places P`,
/// where state 0 counts as a state, and then the file of the wheel, in the full form.
pub fn audit_file<S: Shelf, O: Sink>(
    alloc: Global,
    image: &str,
    shelf: &mut S,
    out: &mut O,
) -> Result<Done, Cause>
    ensures { Served (IsAudit (S.view shelf.old) image.now) None (S.view shelf.old) (S.view shelf.new)
        (stream (O.faults out.old) (O.taken out.old) (O.steady out.old)) (stream (O.faults out.new) (O.taken out.new) (O.steady out.new)) [] result }
{
    let bytes = load(alloc, shelf, image)?;
    let view = view_of(&bytes)?;
    let sound = audit_image(alloc, view)?;
    put_text(alloc, sound.view(), out)
}
