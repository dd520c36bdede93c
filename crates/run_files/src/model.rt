//! Loading a model: its wheel, with what a replay needs of it.
ghost use Rattle.std.specs.Prelude.{◌≡◌, ◌⊎◌, IfOk, IfErr, OnOk};
ghost use Rattle.edge_angles.specs.EdgeTables.{AreEdgesOf};
ghost use Rattle.cam_ranges.specs.Places.{HasTooMany};
ghost use Rattle.run_ends.specs.Loads.{Loads};
ghost use Rattle.wheel_types.specs.Wheels.{IsWheel};
ghost use Rattle.run_files.specs.Models.{IsFreshSet};
ghost use Rattle.run_files.specs.Files.{HasWheel, HasPlacedWheel};
ghost use Rattle.run_files.specs.Causes.{ModelGives, WheelGives};

use crate::loads::load;
use edge_angles::{Edges, find_edges};
use plain_motion::{PlaceFault, PlainSet};
use run_ends::{Cause, Limit, NoWheel, Refusal};
use shelf_io::Shelf;
use std::alloc::Global;
use wheel_pattern::{PatternFault, read_wheel};
use wheel_types::{Memory, Wheel};

/// A wheel with its edges, and a set of its places.
#[derive(Drop)]
pub struct Model {
    pub wheel: Wheel,
    pub edges: Edges,
    pub set: PlainSet,
}

/// Reads the wheel of a file, however many places it has.
///
/// # Errors
/// `Refusal::Wheel` with the first fault of a file that is no wheel's; `ReadFault` where the shelf failed, `Limit::File` past 2^28
/// bytes, or `Memory`.
pub fn load_any_wheel<S: Shelf>(alloc: Global, shelf: &mut S, name: &str) -> Result<Wheel, Cause>
    ensures { Loads (S.view shelf.old) (S.view shelf.old) (S.view shelf.new) name.now (WheelGives (S.view shelf.old).file name.now) (λ wheel. HasWheel (S.view shelf.old).file name.now wheel.parts) result }
{
    let bytes = load(alloc, shelf, name)?;
    match read_wheel(alloc, &bytes) {
        Ok(wheel) => Ok(wheel),
        Err(fault) => {
            if fault == PatternFault::Memory {
                Err(Cause::Memory)
            } else {
                Err(Cause::Refused(Refusal::Wheel(NoWheel { fault })))
            }
        }
    }
}

/// Reads the wheel of a model's file. It is `load_any_wheel`; its caller tells of a wheel that has too many places by `Limit::Places`.
///
/// # Errors
/// Those of `load_any_wheel`.
pub fn load_wheel<S: Shelf>(alloc: Global, shelf: &mut S, name: &str) -> Result<Wheel, Cause>
    ensures { Loads (S.view shelf.old) (S.view shelf.old) (S.view shelf.new) name.now (ModelGives (S.view shelf.old).file name.now) (λ wheel. HasWheel (S.view shelf.old).file name.now wheel.parts) result }
{
    load_any_wheel(alloc, shelf, name)
}

/// The edges of a wheel.
fn edges_of(alloc: Global, wheel: &Wheel) -> Result<Edges, Cause>
    ensures edges { IfOk result (λ edges. AreEdgesOf wheel.now.parts edges) }
    ensures kinds { IfErr result (λ e. e ≡ Cause.Memory) }
{
    match find_edges(alloc, wheel) {
        Ok(edges) => Ok(edges),
        Err(Memory) => Err(Cause::Memory),
    }
}

/// The set of all places of a wheel, before its first instant.
fn fresh_set(alloc: Global, wheel: &Wheel, edges: &Edges) -> Result<PlainSet, Cause>
    requires edges { AreEdgesOf wheel.now.parts edges.now }
    ensures few { OnOk result (¬ HasTooMany wheel.now.parts) }
    ensures fresh { IfOk result (IsFreshSet wheel.now.parts) }
    ensures kinds { IfErr result (λ e. ((e ≡ Cause.Limit Limit.Places) × HasTooMany wheel.now.parts) ⊎ (e ≡ Cause.Memory)) }
{
    match PlainSet::new(alloc, wheel, edges) {
        Ok(set) => Ok(set),
        Err(PlaceFault::TooMany) => Err(Cause::Limit(Limit::Places)),
        Err(PlaceFault::Memory) => Err(Cause::Memory),
    }
}

/// Reads a model's file: its wheel, the wheel's edges, and the set of all its places, before the first instant.
///
/// # Errors
/// `Refusal::Wheel` with the first fault of a file that is no wheel's; `Limit::Places` past 16,384 places; `ReadFault` where the shelf failed,
/// `Limit::File` past 2^28 bytes, or `Memory`.
pub fn load_model<S: Shelf>(alloc: Global, shelf: &mut S, name: &str) -> Result<Model, Cause>
    ensures loads { Loads (S.view shelf.old) (S.view shelf.old) (S.view shelf.new) name.now (ModelGives (S.view shelf.old).file name.now) (λ model. HasPlacedWheel (S.view shelf.old).file name.now model.wheel.parts) result }
    ensures built { IfOk result (λ model. IsWheel model.wheel.parts) }
    ensures edges { IfOk result (λ model. AreEdgesOf model.wheel.parts model.edges) }
    ensures fresh { IfOk result (λ model. IsFreshSet model.wheel.parts model.set) }
    ensures few { IfOk result (λ model. ¬ HasTooMany model.wheel.parts) }
{
    let wheel = load_wheel(alloc, shelf, name)?;
    let edges = edges_of(alloc, &wheel)?;
    let set = fresh_set(alloc, &wheel, &edges)?;
    Ok(Model { wheel, edges, set })
}
