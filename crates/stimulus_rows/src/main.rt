//! Both files of instants.
//!
//! A row is `csv | WATCH | INSTANTS` or `vcd | WATCH | INSTANTS`, and tells the file of comma-separated values or the value change dump of
//! the instants, or `refused` where they cannot be written. A watch has a sign for the crank and each cam: `+` and `-` for rising and
//! falling edges, `*` for both, `.` for none. Instants are as `C+1- 15ms` or `C+1- 15fs`, with a comma and a blank between two of them.
#![tactic(auto)]

use capture_core::Watch;
use row_texts::instants_of;
use rows::{Tells, check};
use std::alloc::{AllocError, Global};
use std::io;
use stimulus_files::{can_write, write_csv, write_vcd};
use wheel_types::{Instant, Keep, Memory};

/// The edges that a sign stands for.
fn keep_of(sign: u8) -> Option<Keep> {
    match sign {
        b'+' => Some(Keep::Rising),
        b'-' => Some(Keep::Falling),
        b'*' => Some(Keep::Both),
        _ => None,
    }
}

/// The watch of three signs, where the crank is watched.
fn watch_of(signs: &[u8]) -> Option<Watch> {
    match signs {
        [crank, cam1, cam2] => Some(Watch {
            crank: keep_of(*crank)?,
            cam1: keep_of(*cam1),
            cam2: keep_of(*cam2),
        }),
        _ => None,
    }
}

/// The text of a file that was written.
fn text_of(alloc: Global, written: Result<Vec<u8>, Memory>) -> Result<String, AllocError> {
    match written {
        Ok(bytes) => String::from_utf8_lossy(alloc, &bytes),
        Err(Memory) => Err(AllocError),
    }
}

/// The file of this kind.
fn file_of(
    alloc: Global,
    kind: &str,
    watch: Watch,
    instants: &[Instant],
) -> Result<Option<String>, AllocError> {
    if !can_write(watch, instants) {
        return Ok(Some(String::from_str(alloc, "refused")?));
    }
    let written = match kind {
        "csv" => write_csv(alloc, watch, instants),
        "vcd" => write_vcd(alloc, watch, instants),
        _ => return Ok(None),
    };
    Ok(Some(text_of(alloc, written)?))
}

/// Tells the files of instants.
#[derive(Drop)]
struct Files;

impl Tells for Files {
    fn told(&self, alloc: Global, fields: &[String]) -> Result<Option<String>, AllocError> {
        let [kind, watch, instants] = fields else {
            return Ok(None);
        };
        let Some(watch) = watch_of(watch.as_bytes()) else {
            return Ok(None);
        };
        match instants_of(alloc, instants)? {
            Some(instants) => file_of(alloc, kind, watch, &instants),
            None => Ok(None),
        }
    }
}

fn main(rt: HostRuntime) -> io::Result<()> {
    check(&rt, &Files)
}
