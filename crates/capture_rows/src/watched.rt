//! What is watched of a capture.

use capture_core::{Names, Watch};
use std::alloc::{AllocError, Global};
use wheel_types::Keep;

/// The names of columns or signals, and which edges are kept of them.
#[derive(Drop)]
pub struct Watched {
    pub names: Names,
    pub watch: Watch,
}

/// The names of crank, first cam, second cam and time, with a comma between two.
pub fn names_of(alloc: Global, text: &str) -> Result<Names, AllocError> {
    let mut names = text.split(',');
    let crank = String::from_str(alloc, names.next().unwrap_or(""))?;
    let cam1 = String::from_str(alloc, names.next().unwrap_or(""))?;
    let cam2 = String::from_str(alloc, names.next().unwrap_or(""))?;
    let time = match names.next() {
        Some(name) => Some(String::from_str(alloc, name)?),
        None => None,
    };
    Ok(Names {
        time,
        crank,
        cam1,
        cam2,
    })
}

/// The edges that a sign stands for.
fn keep_of(sign: u8) -> Option<Keep> {
    match sign {
        b'+' => Some(Keep::Rising),
        b'-' => Some(Keep::Falling),
        b'*' => Some(Keep::Both),
        _ => None,
    }
}

/// The watch of three signs, where the crank is watched.
pub fn watch_of(signs: &[u8]) -> Option<Watch> {
    match signs {
        [crank, cam1, cam2] => Some(Watch {
            crank: keep_of(*crank)?,
            cam1: keep_of(*cam1),
            cam2: keep_of(*cam2),
        }),
        _ => None,
    }
}

/// What names and signs stand for.
pub fn watched_of(alloc: Global, names: &str, signs: &str) -> Result<Option<Watched>, AllocError> {
    let names = names_of(alloc, names)?;
    match watch_of(signs.as_bytes()) {
        Some(watch) => Ok(Some(Watched { names, watch })),
        None => Ok(None),
    }
}
