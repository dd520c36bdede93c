//! What an image has in all.

use crate::Told;
use image_format::View;
use std::alloc::{AllocError, Global};
use std::fmt::Write;
use wheel_types::{Channel, Memory, WheelParts};

fn push_counts(told: &mut String, view: &View<'_>) -> Result<(), AllocError> {
    write!(told, "cranks {}, ", view.crank_count())?;
    write!(told, "places {}, ", view.place_count())?;
    write!(told, "cuts {} {}, ", view.time_cuts(), view.ratio_cuts())?;
    write!(told, "words {}, ", view.words())?;
    write!(told, "width {}, ", view.row_width())?;
    write!(told, "states {};", view.state_count())
}

/// Adds the slots of the crank edges, the numbers of the cams' edges, and the places.
fn push_edges(told: &mut String, view: &View<'_>) -> Result<(), AllocError> {
    for j in 0..view.crank_count() {
        write!(told, " {}", view.crank_slot(j))?;
    }
    let cam1 = view.cam_count(Channel::Cam1);
    let cam2 = view.cam_count(Channel::Cam2);
    write!(told, "; {cam1} {cam2};")?;
    for i in 0..view.place_count() {
        let place = view.place(i);
        write!(told, " {}:{}:{}", place.j, place.n1, place.n2)?;
    }
    Ok(())
}

/// Adds the cuts of the times and of the ratios.
fn push_cuts(told: &mut String, view: &View<'_>) -> Result<(), AllocError> {
    told.push(';')?;
    for i in 0..view.time_cuts() {
        write!(told, " {}", view.time_cut(i))?;
    }
    told.push(';')?;
    for i in 0..view.ratio_cuts() {
        let (top, bottom) = view.ratio_cut(i);
        write!(told, " {top}/{bottom}")?;
    }
    Ok(())
}

/// Adds the parts of a wheel.
fn push_parts(told: &mut String, parts: &WheelParts) -> Result<(), AllocError> {
    write!(told, "; {} ", parts.degrees)?;
    write!(
        told,
        "{:?} {:?} {:?}, ",
        parts.crank, parts.cam1, parts.cam2
    )?;
    write!(told, "{} {}, ", parts.cam1_early, parts.cam1_late)?;
    write!(told, "{} {}, ", parts.cam2_early, parts.cam2_late)?;
    write!(told, "{} {}, ", parts.rpm_low, parts.rpm_high)?;
    write!(told, "{}/{};", parts.rn, parts.rd)?;
    for slot in parts.slots.as_slice() {
        write!(told, " {slot}")?;
    }
    Ok(())
}

/// What is told of what an image has in all.
pub fn told_of_fields(alloc: Global, view: &View<'_>) -> Told {
    let mut told = String::new(alloc);
    push_counts(&mut told, view)?;
    push_edges(&mut told, view)?;
    push_cuts(&mut told, view)?;
    match view.wheel(alloc) {
        Ok(wheel) => push_parts(&mut told, wheel.parts())?,
        Err(Memory) => return Err(AllocError),
    }
    Ok(Some(told))
}
