//! Does a piece of work on an image or a wheel again and again, for the scripts of bench/, which time it.
//!
//! The words are WORK ROUNDS FILE. `verify` looks at the layout of an image and `audit` at its table; `build` makes the states of a
//! wheel's table, `table` their rows too, and `compile` its image. One line is printed: the rounds, the work, and the sum of what the
//! rounds gave, which is the number of states, or of an image's bytes. The words `image WHEEL` write the image of a wheel on standard
//! output. The status is 1 where the words are others, or a file cannot be read, is refused, or asks for more memory than there is.
#![tactic(auto)]

mod work;

use std::io::{self, ErrorKind, Write};
use std::{env, fs};
use work::{Work, compiled, wheel_of};

/// Prints what rounds of a work on a file give.
fn print_rounds(rt: &HostRuntime, name: &str, rounds: &str, file: &str) -> io::Result<()> {
    let Ok(rounds) = rounds.parse::<u32>() else {
        return Err(ErrorKind::InvalidInput.into());
    };
    let Some(work) = Work::of(rt.alloc(), name, fs::read(rt, file)?) else {
        return Err(ErrorKind::InvalidInput.into());
    };
    let Some(total) = work.rounds(rt.alloc(), rounds) else {
        return Err(ErrorKind::InvalidData.into());
    };
    println!(rt; "{rounds} of {name}: {total}")
}

/// Writes the image of a wheel's file on standard output.
fn print_image(rt: &HostRuntime, file: &str) -> io::Result<()> {
    let Some(wheel) = wheel_of(rt.alloc(), &fs::read(rt, file)?) else {
        return Err(ErrorKind::InvalidData.into());
    };
    let Some(image) = compiled(rt.alloc(), &wheel) else {
        return Err(ErrorKind::InvalidData.into());
    };
    rt.stdout().write_all(&image)
}

fn main(rt: HostRuntime) -> io::Result<()> {
    let words: Vec<String> = env::args(&rt)?.skip(1).collect(rt.alloc())?;
    match words.as_slice() {
        [word, file] if word.as_str() == "image" => print_image(&rt, file),
        [name, rounds, file] => print_rounds(&rt, name, rounds, file),
        _ => Err(ErrorKind::InvalidInput.into()),
    }
}
