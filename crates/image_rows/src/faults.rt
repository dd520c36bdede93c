//! The rules that bytes break.

use crate::Told;
use image_format::{ImageFault, View};
use std::alloc::{AllocError, Global};
use std::fmt::Write;

/// The changes of an image that are told to break a rule of the same section: how many, and the sum of their places, each times the
/// number of the entry and one.
#[derive(Clone, Copy)]
struct Group {
    fault: Option<ImageFault>,
    count: u64,
    sum: u64,
}

/// The first rule that bytes break.
fn fault_of(bytes: &[u8]) -> Option<ImageFault> {
    View::verify(bytes).err()
}

/// The fault where the entry's number is 0, and this number.
fn split(fault: Option<ImageFault>) -> (Option<ImageFault>, u32) {
    match fault {
        Some(ImageFault::Order { section, at }) => {
            (Some(ImageFault::Order { section, at: 0 }), at)
        }
        Some(ImageFault::Range { section, at }) => {
            (Some(ImageFault::Range { section, at: 0 }), at)
        }
        other => (other, 0),
    }
}

/// The name of a fault, with its section.
fn name_of(alloc: Global, fault: Option<ImageFault>) -> Result<String, AllocError> {
    match fault {
        None => String::from_str(alloc, "image"),
        Some(ImageFault::Order { section, .. }) => format!(in alloc; "Order {section}"),
        Some(ImageFault::Range { section, .. }) => format!(in alloc; "Range {section}"),
        Some(other) => format!(in alloc; "{other:?}"),
    }
}

/// The text of the first rule that bytes break.
pub fn text_of_fault(alloc: Global, fault: Option<ImageFault>) -> Result<String, AllocError> {
    let mut text = name_of(alloc, fault)?;
    if let Some(ImageFault::Order { at, .. } | ImageFault::Range { at, .. }) = fault {
        write!(text, " {at}")?;
    }
    Ok(text)
}

/// Adds what the first bytes of an image are told to be, from so many to so many.
fn push_run(
    told: &mut String,
    alloc: Global,
    fault: Option<ImageFault>,
    from: usize,
    to: usize,
) -> Result<(), AllocError> {
    if !told.is_empty() {
        told.push_str(", ")?;
    }
    told.push_str(&text_of_fault(alloc, fault)?)?;
    write!(told, " {from}")?;
    if from < to {
        write!(told, "-{to}")?;
    }
    Ok(())
}

/// What the first 0, 1, 2, .. bytes of an image are told to be.
pub fn told_of_prefixes(alloc: Global, bytes: &[u8]) -> Result<String, AllocError> {
    let mut told = String::new(alloc);
    let mut from = 0;
    let mut fault = fault_of(&[]);
    for length in 1..=bytes.len() {
        let next = fault_of(&bytes[..length]);
        if next != fault {
            push_run(&mut told, alloc, fault, from, length - 1)?;
            from = length;
            fault = next;
        }
    }
    push_run(&mut told, alloc, fault, from, bytes.len())?;
    Ok(told)
}

/// Changes the bits of a mask in the byte at a place.
fn flip(bytes: &mut [u8], place: usize, mask: u8) {
    if let Some(byte) = bytes.get_mut(place) {
        *byte ^= mask;
    }
}

/// Counts a change at a place.
fn count(
    groups: &mut Vec<Group>,
    place: usize,
    fault: Option<ImageFault>,
) -> Result<(), AllocError> {
    let (fault, at) = split(fault);
    let weight = (place as u64).wrapping_mul(u64::from(at) + 1);
    for group in groups.iter_mut() {
        if group.fault == fault {
            group.count = group.count.wrapping_add(1);
            group.sum = group.sum.wrapping_add(weight);
            return Ok(());
        }
    }
    groups.push(Group {
        fault,
        count: 1,
        sum: weight,
    })?;
    Ok(())
}

/// The text of the groups.
fn text_of_groups(alloc: Global, groups: &[Group]) -> Result<String, AllocError> {
    let mut text = String::new(alloc);
    for group in groups.iter() {
        if !text.is_empty() {
            text.push_str(", ")?;
        }
        text.push_str(&name_of(alloc, group.fault)?)?;
        write!(text, " {}/{}", group.count, group.sum)?;
    }
    Ok(text)
}

/// What an image is told to be with each byte in turn changed by a mask.
pub fn told_of_flips(alloc: Global, mask: &str, bytes: Vec<u8>) -> Told {
    let mut bytes = bytes;
    let Ok(mask) = u8::from_str_radix(mask, 16) else {
        return Ok(None);
    };
    let mut groups = Vec::new(alloc);
    for place in 0..bytes.len() {
        flip(bytes.as_mut_slice(), place, mask);
        count(&mut groups, place, fault_of(bytes.as_slice()))?;
        flip(bytes.as_mut_slice(), place, mask);
    }
    Ok(Some(text_of_groups(alloc, groups.as_slice())?))
}
