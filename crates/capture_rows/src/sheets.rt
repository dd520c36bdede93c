//! Captures in CSV.

use crate::edges::push_instant;
use crate::watched::{Watched, names_of};
use capture_core::{Capture, End, Watch};
use csv_capture::read_csv;
use std::alloc::{AllocError, Global};
use wheel_types::Keep;

const RISING: Watch = Watch {
    crank: Keep::Rising,
    cam1: None,
    cam2: None,
};

/// The capture of a file in CSV.
pub fn capture_of(alloc: Global, watched: &Watched, file: &[u8]) -> Result<Capture, AllocError> {
    match read_csv(alloc, file, &watched.names, watched.watch) {
        Ok(capture) => Ok(capture),
        Err(_) => Err(AllocError),
    }
}

/// What is told of a file in CSV: its instants, and its end.
pub fn told_of_sheet(alloc: Global, watched: &Watched, file: &[u8]) -> Result<String, AllocError> {
    let capture = capture_of(alloc, watched, file)?;
    let mut told = String::new(alloc);
    for instant in capture.instants.as_slice() {
        push_instant(&mut told, *instant)?;
    }
    write!(told, "{:?}", capture.end)?;
    Ok(told)
}

/// A text in which `~` stands for 5,000 zeros.
fn written_out(alloc: Global, text: &str) -> Result<String, AllocError> {
    let zeros = "0".repeat(alloc, 5000)?;
    text.replace(alloc, '~', &zeros)
}

/// What is told of a time, at which the crank rises: the femtoseconds, or the fault.
pub fn told_of_time(alloc: Global, text: &str) -> Result<String, AllocError> {
    let watched = Watched {
        names: names_of(alloc, "crank")?,
        watch: RISING,
    };
    let time = written_out(alloc, text)?;
    let file = format!(in alloc; "t,crank\n-1000000000,0\n{time},1\n")?;
    let capture = capture_of(alloc, &watched, file.as_bytes())?;
    match (capture.instants.as_slice(), capture.end) {
        ([rise], End::Clean) => format!(in alloc; "{}", rise.time),
        (_, end) => format!(in alloc; "{end:?}"),
    }
}
