//! Stamps, as levels go on from one to the next.
ghost use Rattle.std.specs.Prelude.{◌≡◌, ◌<ℤ◌, List, ◌∷◌, IfSome, OnOk, true};
ghost use Rattle.capture_core.specs.LevelsOf.{StandsAt, StandsOpen, is_open, watched_by, time_of_last};
ghost use Rattle.capture_core.specs.Stamps as stamps;
ghost use Rattle.capture_core.specs.declared.capture.Stamp.{Stamp as AStamp};

use capture_core::{Given, Levels};
use std::alloc::AllocError;
use wheel_types::{Channel, Instant};

/// Gives a channel's level, where there is one.
fn give(levels: &mut Levels, channel: Channel, level: Option<bool>)
    requires { is_open levels.old ≡ true }
    ensures stands { (s : AStamp) (closed : List AStamp) → StandsOpen levels.old s closed → StandsOpen levels.new (record { time = s.time; given = stamps.with_level_if channel level s.given }) closed }
    ensures watch { watched_by levels.new ≡ watched_by levels.old }
    ensures is_open { is_open levels.new ≡ true }
    ensures last { time_of_last levels.new ≡ time_of_last levels.old }
{
    if let Some(level) = level {
        levels.give(channel, level);
    }
}

/// Gives all levels of a row.
pub fn give_all(levels: &mut Levels, given: Given)
    requires { is_open levels.old ≡ true }
    ensures stands { (s : AStamp) (closed : List AStamp) → StandsOpen levels.old s closed → StandsOpen levels.new (record { time = s.time; given = stamps.over given s.given }) closed }
    ensures watch { watched_by levels.new ≡ watched_by levels.old }
    ensures is_open { is_open levels.new ≡ true }
    ensures last { time_of_last levels.new ≡ time_of_last levels.old }
{
    give(levels, Channel::Crank, given.crank);
    give(levels, Channel::Cam1, given.cam1);
    give(levels, Channel::Cam2, given.cam2);
}

/// Closes the open stamp, and opens one of a later time.
pub fn next_stamp(levels: &mut Levels, time: i128) -> Option<Instant>
    requires is_open { is_open levels.old ≡ true }
    requires later { IfSome (time_of_last levels.old) (λ t. t <ℤ time) }
    ensures stands { (s : AStamp) (closed : List AStamp) → StandsOpen levels.old s closed → StandsOpen levels.new (record { time = time; given = stamps.nothing }) (s ∷ closed) }
    ensures instant { (s : AStamp) (closed : List AStamp) → StandsOpen levels.old s closed → result ≡ stamps.instant_at (watched_by levels.old) (stamps.known_after closed) s }
    ensures watch { watched_by levels.new ≡ watched_by levels.old }
    ensures is_open { is_open levels.new ≡ true }
    ensures last { time_of_last levels.new ≡ Some time }
{
    let closed = levels.close();
    levels.open(time);
    closed
}

/// The instant at the last stamp, if it were closed.
pub fn last_instant(levels: Levels) -> Option<Instant>
    ensures { (told : List AStamp) → StandsAt levels told → result ≡ stamps.last_instant (watched_by levels) told }
{
    let mut levels = levels;
    if levels.is_open() {
        levels.close()
    } else {
        None
    }
}

/// Adds an instant at the end, where there is one.
pub fn push_if(instants: &mut Vec<Instant>, instant: Option<Instant>) -> Result<(), AllocError>
    ensures { OnOk result (instants.new.items ≡ stamps.with_last instants.old.items instant) }
{
    if let Some(instant) = instant {
        instants.push(instant)?;
    }
    Ok(())
}
