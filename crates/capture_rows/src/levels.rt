//! Levels at stamps, with the instants that they make.
ghost use Rattle.std.specs.Prelude.{◌≡◌, ◌<ℤ◌, IfSome, Some, true, false};
ghost use Rattle.capture_core.specs.LevelsOf.{is_open, time_of_last};

use crate::edges::push_instant;
use capture_core::{Levels, Watch};
use std::alloc::{AllocError, Global};
use wheel_types::{Channel, Instant};

/// Gives the level that a word names: `c`, `a` or `b` for the crank and the cams, and the level.
fn give(levels: &mut Levels, word: &str)
    requires { is_open levels.old ≡ true }
    ensures is_open { is_open levels.new ≡ true }
    ensures last { time_of_last levels.new ≡ time_of_last levels.old }
{
    match word {
        "c0" => levels.give(Channel::Crank, false),
        "c1" => levels.give(Channel::Crank, true),
        "a0" => levels.give(Channel::Cam1, false),
        "a1" => levels.give(Channel::Cam1, true),
        "b0" => levels.give(Channel::Cam2, false),
        "b1" => levels.give(Channel::Cam2, true),
        _ => {}
    }
}

/// A whole stamp, at which these levels are given in turn.
fn stamp(levels: &mut Levels, time: i128, words: &str) -> Option<Instant>
    requires shut { is_open levels.old ≡ false }
    requires later { IfSome (time_of_last levels.old) (λ t. t <ℤ time) }
    ensures shut { is_open levels.new ≡ false }
    ensures last { time_of_last levels.new ≡ Some time }
{
    levels.open(time);
    'words: for word in words.split_whitespace() {
        give(levels, word);
    }
    levels.close()
}

/// The instants of stamps at the times 0, 1, 2 and so on, and their number.
pub fn told_of_levels(
    alloc: Global,
    watch: Watch,
    stamps: &[String],
) -> Result<String, AllocError> {
    let mut levels = Levels::new(watch);
    let mut told = String::new(alloc);
    let mut count: u64 = 0;
    'stamps: for time in 0..stamps.len() {
        if let Some(instant) = stamp(&mut levels, time as i128, &stamps[time]) {
            push_instant(&mut told, instant)?;
            count = count.wrapping_add(1);
        }
    }
    write!(told, "{count} in all")?;
    Ok(told)
}
