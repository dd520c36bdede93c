//! The levels of a capture's channels, from stamp to stamp.
ghost use Rattle.std.specs.Prelude.{◌≡◌, ◌<ℤ◌, List, [], ◌∷◌, IsTrue, IfSome, true, false, Option, not};
ghost use Rattle.capture_core.specs.Stamps as stamps;
ghost use Rattle.capture_core.specs.declared.capture.Stamp.{Stamp as AStamp};

use crate::{Given, Watch};
use wheel_types::{Channel, Instant, Keep, Pol};

/// The levels of a capture, which make instants as stamps are closed. None of its calls takes memory.
#[derive(Clone, Copy, Debug)]
pub struct Levels {
    watch: Watch,
    known: Given,
    given: Given,
    last: Option<i128>,
    is_open: bool,
}

const NOTHING: Given = Given {
    crank: None,
    cam1: None,
    cam2: None,
};

fn kept_edge(keep: Keep, now: bool) -> Option<Pol>
    ensures { result ≡ stamps.kept_edge keep (not now) now }
{
    match (keep, now) {
        (Keep::Rising | Keep::Both, true) => Some(Pol::Rise),
        (Keep::Falling | Keep::Both, false) => Some(Pol::Fall),
        _ => None,
    }
}

fn edge(keep: Option<Keep>, before: Option<bool>, now: Option<bool>) -> Option<Pol>
    ensures { result ≡ stamps.edge_of keep before now }
{
    let keep = keep?;
    let before = before?;
    let now = now?;
    if before == now {
        None
    } else {
        kept_edge(keep, now)
    }
}

fn merged(now: Given, before: Given) -> Given
    ensures { result ≡ stamps.over now before }
{
    Given {
        crank: now.crank.or(before.crank),
        cam1: now.cam1.or(before.cam1),
        cam2: now.cam2.or(before.cam2),
    }
}

fn instant(time: i128, crank: Option<Pol>, cam1: Option<Pol>, cam2: Option<Pol>) -> Option<Instant>
    ensures { result ≡ stamps.instant_if time crank cam1 cam2 }
{
    match (crank, cam1, cam2) {
        (None, None, None) => None,
        (Some(_), _, _) | (None, Some(_), _) | (None, None, Some(_)) => Some(Instant {
            time,
            crank,
            cam1,
            cam2,
        }),
    }
}

impl Levels {
    ghost use Rattle.std.specs.Prelude.{◌↔◌, None};
    ghost use Rattle.capture_core.specs.LevelsOf.{StandsFor, StandsOpen, watched_by, is_open, time_of_last};
    ghost use Rattle.capture_core.specs.Changes.{HasNoChange};

    /// No level is known, and no stamp is open.
    pub fn new(watch: Watch) -> Levels
        ensures stands { StandsFor result [] }
        ensures watch { watched_by result ≡ watch }
        ensures shut { is_open result ≡ false }
        ensures last { time_of_last result ≡ None }
    {
        Levels {
            watch,
            known: NOTHING,
            given: NOTHING,
            last: None,
            is_open: false,
        }
    }

    /// Opens a stamp at this time in femtoseconds, at which no level is given yet.
    pub fn open(&mut self, time: i128)
        requires shut { is_open self.old ≡ false }
        requires later { IfSome (time_of_last self.old) (λ t. t <ℤ time) }
        ensures stands { (closed : List AStamp) → StandsFor self.old closed → StandsOpen self.new (record { time = time; given = stamps.nothing }) closed }
        ensures watch { watched_by self.new ≡ watched_by self.old }
        ensures is_open { is_open self.new ≡ true }
        ensures last { time_of_last self.new ≡ Some time }
    {
        self.given = NOTHING;
        self.last = Some(time);
        self.is_open = true;
    }

    /// The channel has this level at the open stamp, whatever was given there before.
    pub fn give(&mut self, channel: Channel, level: bool)
        requires { is_open self.old ≡ true }
        ensures stands { (s : AStamp) (closed : List AStamp) → StandsOpen self.old s closed → StandsOpen self.new (record { time = s.time; given = stamps.with_level channel level s.given }) closed }
        ensures watch { watched_by self.new ≡ watched_by self.old }
        ensures is_open { is_open self.new ≡ true }
        ensures last { time_of_last self.new ≡ time_of_last self.old }
    {
        match channel {
            Channel::Crank => self.given.crank = Some(level),
            Channel::Cam1 => self.given.cam1 = Some(level),
            Channel::Cam2 => self.given.cam2 = Some(level),
        }
    }

    /// Closes the open stamp, and gives its instant where a kept change stands there.
    pub fn close(&mut self) -> Option<Instant>
        requires { is_open self.old ≡ true }
        ensures stands { (s : AStamp) (closed : List AStamp) → StandsOpen self.old s closed → StandsFor self.new (s ∷ closed) }
        ensures instant { (s : AStamp) (closed : List AStamp) → StandsOpen self.old s closed → result ≡ stamps.instant_at (watched_by self.old) (stamps.known_after closed) s }
        ensures none { (s : AStamp) (closed : List AStamp) → StandsOpen self.old s closed → (result ≡ None) ↔ HasNoChange (watched_by self.old) closed s }
        ensures watch { watched_by self.new ≡ watched_by self.old }
        ensures shut { is_open self.new ≡ false }
        ensures last { time_of_last self.new ≡ time_of_last self.old }
    {
        let crank = edge(Some(self.watch.crank), self.known.crank, self.given.crank);
        let cam1 = edge(self.watch.cam1, self.known.cam1, self.given.cam1);
        let cam2 = edge(self.watch.cam2, self.known.cam2, self.given.cam2);
        self.known = merged(self.given, self.known);
        self.is_open = false;
        let time = self.last?;
        instant(time, crank, cam1, cam2)
    }

    /// A stamp is open.
    pub fn is_open(&self) -> bool
        ensures { result ≡ is_open self.now }
    {
        self.is_open
    }

    /// The time of the last stamp in femtoseconds, open or closed.
    pub fn last_time(&self) -> Option<i128>
        ensures { result ≡ time_of_last self.now }
    {
        self.last
    }
}
