//! Wheels of rows, and their edges.
ghost use Rattle.edge_angles.specs.EdgeTables.{AreEdgesOf};

use crate::texts::{text_of, written_out};
use edge_angles::{Edges, find_edges};
use std::alloc::{AllocError, Global};
use wheel_pattern::{PatternFault, read_wheel};
use wheel_types::{Memory, Wheel};

/// A wheel with its edges.
#[derive(Drop)]
pub struct Model {
    pub wheel: Wheel,
    pub edges: Edges,
    pub ghost table: { AreEdgesOf wheel.parts edges },
}

/// The wheel of a file of these lines, if it is one's.
pub fn wheel_of(alloc: Global, lines: &[String]) -> Result<Option<Wheel>, AllocError> {
    let text = text_of(alloc, lines)?;
    let text = written_out(alloc, &text)?;
    match read_wheel(alloc, text.as_bytes()) {
        Ok(wheel) => Ok(Some(wheel)),
        Err(PatternFault::Memory) => Err(AllocError),
        Err(_) => Ok(None),
    }
}

/// The wheel of a file of these lines with its edges, if it is one's.
pub fn model_of(alloc: Global, lines: &[String]) -> Result<Option<Model>, AllocError> {
    let Some(wheel) = wheel_of(alloc, lines)? else {
        return Ok(None);
    };
    match find_edges(alloc, &wheel) {
        Ok(edges) => Ok(Some(Model { wheel, edges })),
        Err(Memory) => Err(AllocError),
    }
}
