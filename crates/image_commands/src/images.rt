//! Images, by their bytes.
ghost use Rattle.std.specs.Prelude.{◌≡◌, IfOk, IfErr, OnOk};
ghost use Rattle.edge_angles.specs.EdgeTables.{AreEdgesOf};
ghost use Rattle.image_layout.specs.Fields.{wheel_parts_of};
ghost use Rattle.image_layout.specs.Tables.{KeepsLayout};
ghost use Rattle.image_commands.specs.Images.{LayoutGives};

use edge_angles::{Edges, find_edges};
use image_format::View;
use run_ends::{Cause, Refusal};
use std::alloc::Global;
use wheel_types::{Memory, Wheel};

/// The wheel of an image, with its edges.
#[derive(Drop)]
pub struct Watched {
    pub wheel: Wheel,
    pub edges: Edges,
}

/// The view of an image's bytes. It takes no memory, and asks nothing of the table but its layout.
///
/// # Errors
/// `Refusal::Image` with the first rule of the layout that the bytes break.
pub fn view_of(bytes: &[u8]) -> Result<View<'_>, Cause>
    ensures bytes { IfOk result (λ view. view.bytes.now ≡ bytes.now) }
    ensures layout { OnOk result (KeepsLayout bytes.now) }
    ensures fault { IfErr result (LayoutGives bytes.now) }
{
    match View::verify(bytes) {
        Ok(view) => Ok(view),
        Err(fault) => Err(Cause::Refused(Refusal::Image(fault))),
    }
}

/// The wheel that an image holds, with its edges.
///
/// # Errors
/// Want of memory.
pub fn watched_wheel(alloc: Global, view: &View<'_>) -> Result<Watched, Memory>
    ensures wheel { IfOk result (λ watched. watched.wheel.parts ≡ wheel_parts_of view.now.bytes.now) }
    ensures edges { IfOk result (λ watched. AreEdgesOf watched.wheel.parts watched.edges) }
{
    let wheel = view.wheel(alloc)?;
    let edges = find_edges(alloc, &wheel)?;
    Ok(Watched { wheel, edges })
}
