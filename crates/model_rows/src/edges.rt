//! The kept edges of wheels.

use crate::Told;
use crate::model::model_of;
use edge_angles::Edges;
use std::alloc::{AllocError, Global};
use std::fmt::Write;
use wheel_types::{Channel, Memory, Pol};

/// Which way a level goes.
fn sign(pol: Pol) -> char {
    match pol {
        Pol::Rise => '+',
        Pol::Fall => '-',
    }
}

/// What stands before an edge in a text.
fn before(number: u32) -> &'static str {
    if number == 0 { " " } else { ", " }
}

/// Adds the crank edges to a text, each with the gap after it.
fn add_crank(text: &mut String, edges: &Edges) -> Result<(), AllocError> {
    for j in 0..edges.crank_count() {
        let (slot, gap) = (edges.crank_slot(j), edges.crank_gap(j));
        let sign = sign(edges.crank_pol(j));
        write!(text, "{}{slot}{sign} gap {gap}", before(j))?;
    }
    Ok(())
}

/// Adds the edges of a cam to a text.
fn add_cam(text: &mut String, edges: &Edges, cam: Channel) -> Result<(), AllocError> {
    for n in 0..edges.cam_count(cam) {
        let slot = edges.cam_slot(cam, n);
        let sign = sign(edges.cam_pol(cam, n));
        write!(text, "{}{slot}{sign}", before(n))?;
    }
    Ok(())
}

/// The edges, channel by channel: the slot of each, which way the level goes there, and the gap after those of the crank.
fn text_of_edges(alloc: Global, edges: &Edges) -> Result<String, AllocError> {
    let mut text = String::from_str(alloc, "crank")?;
    add_crank(&mut text, edges)?;
    text.push_str("; cam1")?;
    add_cam(&mut text, edges, Channel::Cam1)?;
    text.push_str("; cam2")?;
    add_cam(&mut text, edges, Channel::Cam2)?;
    Ok(text)
}

/// What is told of a copy of a wheel's edges.
pub fn told_of_edges(alloc: Global, lines: &[String]) -> Told {
    let Some(model) = model_of(alloc, lines)? else {
        return Ok(None);
    };
    match model.edges.copied(alloc) {
        Ok(edges) => Ok(Some(text_of_edges(alloc, &edges)?)),
        Err(Memory) => Err(AllocError),
    }
}
