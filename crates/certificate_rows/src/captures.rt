//! Wheels and captures of rows.
ghost use Rattle.std.specs.Prelude.{◌^◌, IfOk};
ghost use Rattle.wheel_types.specs.Verdicts.{IsRising, AreWithin};

use capture_core::{Capture, Names, Watch};
use csv_capture::read_csv;
use std::alloc::{AllocError, Global};
use wheel_pattern::{PatternFault, read_wheel};
use wheel_types::{Keep, Memory, Wheel};

/// The wheel of a file, if it is one's.
pub fn wheel_of(alloc: Global, text: &str) -> Result<Option<Wheel>, AllocError> {
    match read_wheel(alloc, text.as_bytes()) {
        Ok(wheel) => Ok(Some(wheel)),
        Err(PatternFault::Memory) => Err(AllocError),
        Err(_) => Ok(None),
    }
}

/// The edges that are kept of a cam which a text names.
fn keep_if_named(text: &str, cam: &str, keep: Keep) -> Option<Keep> {
    if text.contains(cam) { Some(keep) } else { None }
}

/// The capture of a text in CSV, as it is kept of a wheel.
pub fn capture_of(alloc: Global, wheel: &Wheel, text: &str) -> Result<Capture, AllocError>
    ensures rising { IfOk result (λ capture. IsRising capture.instants) }
    ensures within { IfOk result (λ capture. AreWithin (10 ^ 24) capture.instants) }
{
    let names = Names {
        time: None,
        crank: String::from_str(alloc, "crank")?,
        cam1: String::from_str(alloc, "cam1")?,
        cam2: String::from_str(alloc, "cam2")?,
    };
    let parts = wheel.parts();
    let watch = Watch {
        crank: parts.crank,
        cam1: keep_if_named(text, "cam1", parts.cam1),
        cam2: keep_if_named(text, "cam2", parts.cam2),
    };
    match read_csv(alloc, text.as_bytes(), &names, watch) {
        Ok(capture) => Ok(capture),
        Err(Memory) => Err(AllocError),
    }
}
