//! Images whose tables are those of their own wheels.
ghost use Rattle.std.specs.Prelude.{◌≡◌, IfOk, IfErr, OnOk};
ghost use Rattle.table_images.specs.Images.{IsSoundImage};
ghost use Rattle.run_ends.specs.Works.{StopsJudge};
ghost use Rattle.table_models.specs.Models.{NotSoundGives};

use image_audit::Sound;
use image_commands::{audit_image, view_of};
use run_ends::Cause;
use std::alloc::Global;

/// The image of these bytes, audit_image.
///
/// # Errors
/// `Refusal::Image` with the first rule of the layout that the bytes break; `Refusal::Audit` with the first difference between the image
/// and the table of its own wheel; `Memory`.
pub fn sound_image(alloc: Global, image: &[u8]) -> Result<Sound<'_>, Cause>
    ensures sound { OnOk result (IsSoundImage image.now) }
    ensures bytes { IfOk result (λ sound. sound.view.bytes.now ≡ image.now) }
    ensures gives { IfErr result (StopsJudge (NotSoundGives image.now)) }
{
    let view = view_of(image)?;
    audit_image(alloc, view)
}
