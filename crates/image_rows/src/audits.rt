//! Audits of images.

use crate::Told;
use image_audit::{AuditFault, audit};
use image_format::View;
use std::alloc::{AllocError, Global};

/// The first difference between an image and its own wheel's table, or `None` where there is none.
pub fn difference_of(alloc: Global, view: &View<'_>) -> Result<Option<AuditFault>, AllocError> {
    match audit(alloc, view.again()) {
        Ok(_) => Ok(None),
        Err(AuditFault::Memory) => Err(AllocError),
        Err(fault) => Ok(Some(fault)),
    }
}

/// How many states and places a sound image has, or the first difference between an image and its own wheel's table.
pub fn told_of_audit(alloc: Global, view: &View<'_>) -> Told {
    match difference_of(alloc, view)? {
        Some(fault) => Ok(Some(format!(in alloc; "{fault:?}")?)),
        None => {
            let states = view.state_count();
            let places = view.place_count();
            Ok(Some(format!(in alloc; "sound {states} {places}")?))
        }
    }
}
