//! The changes of one channel, one after the other.
ghost use Rattle.std.specs.Prelude.{◌≡◌, ◌≤◌, ◌^◌, [], ◌∷◌, length, MatchOption};
ghost use Rattle.wheel_types.specs.Verdicts.{AreWithin};
ghost use Rattle.capture_core.specs.Changes.{edge_on, level_after};
ghost use Rattle.stimulus_files.specs.Changes.{halfway};
ghost use Rattle.stimulus_files.specs.Tracks.{edge_of, edges_from};

use crate::pending::{Mark, Pending, Turn};
use wheel_types::{Channel, Instant, Keep, Pol};

/// The changes that a channel has left. Its edges in the instants before `index` are passed or pending.
#[derive(Clone, Copy)]
pub struct Track {
    /// The channel.
    pub channel: Channel,
    /// Which edges it keeps. Where no change is pending, this has no import.
    pub keep: Keep,
    /// How many instants are passed.
    pub index: usize,
    /// The next change.
    pub pending: Pending,
}

/// A track before its first change.
#[derive(Clone, Copy)]
pub struct Begun {
    /// The track.
    pub track: Track,
    /// The channel's level at time 0, where it is watched.
    pub level: Option<bool>,
}

/// An edge, and how many instants are passed with it.
#[derive(Clone, Copy)]
struct Found {
    edge: Mark,
    index: usize,
}

/// The level after an edge.
fn level_after(polarity: Pol) -> bool
    ensures { result ≡ level_after polarity }
{
    match polarity {
        Pol::Rise => true,
        Pol::Fall => false,
    }
}

/// The edge of a channel in an instant.
fn edge_on(instant: &Instant, channel: Channel) -> Option<Pol>
    ensures { result ≡ edge_on channel instant.now }
{
    match channel {
        Channel::Crank => instant.crank,
        Channel::Cam1 => instant.cam1,
        Channel::Cam2 => instant.cam2,
    }
}

/// The first edge of a channel in the instants from an index on.
fn next_edge(instants: &[Instant], channel: Channel, from: usize) -> Option<Found>
    requires small { AreWithin (10 ^ 24) instants.now }
    requires from { from ≤ length instants.now }
    ensures { MatchOption result (edges_from channel instants.now from ≡ [])
        (λ f. (f.index ≤ length instants.now)
        × (edges_from channel instants.now from ≡ edge_of f.edge ∷ edges_from channel instants.now f.index)) }
{
    for index in from..instants.len() {
        let instant = instants[index];
        if let Some(polarity) = edge_on(&instant, channel) {
            let edge = Mark {
                time: instant.time,
                polarity,
            };
            return Some(Found {
                edge,
                index: index + 1,
            });
        }
    }
    None
}

/// Halfway between two edges, rounded down.
fn halfway(edge: Mark, next: Mark) -> i128
    ensures { result ≡ halfway edge.time next.time }
{
    (edge.time + next.time).div_euclid(2)
}

impl Track {
    ghost use Rattle.std.specs.Prelude.{◌≡◌, ◌≤◌, ◌^◌, List, length};
    ghost use Rattle.wheel_types.specs.declared.instant.Instant.{Instant as AnInstant};
    ghost use Rattle.wheel_types.specs.Verdicts.{AreWithin};
    ghost use Rattle.stimulus_files.specs.Changes.{edges_on};
    ghost use Rattle.stimulus_files.specs.Tracks.{changes_after, changes_if, edge_of, edges_from, first_time, left_of, level_if, IsTaken};

    /// The changes of a channel: none where it is not watched.
    pub fn begin(instants: &[Instant], channel: Channel, watched: Option<Keep>) -> Begun
        requires small { AreWithin (10 ^ 24) instants.now }
        ensures within { result.track.index ≤ length instants.now }
        ensures left { left_of instants.now result.track ≡ changes_if watched (edges_on channel instants.now) }
        ensures level { result.level ≡ level_if watched (edges_on channel instants.now) }
    {
        let mut track = Track {
            channel,
            keep: Keep::Both,
            index: 0,
            pending: Pending::Nothing,
        };
        let Some(keep) = watched else {
            return Begun { track, level: None };
        };
        track.keep = keep;
        match next_edge(instants, channel, 0) {
            None => Begun {
                track,
                level: Some(false),
            },
            Some(Found { edge, index }) => {
                track.index = index;
                track.pending = Pending::Forth(edge);
                Begun {
                    track,
                    level: Some(!level_after(edge.polarity)),
                }
            }
        }
    }

    /// The time of the next change, where there is one.
    pub fn time(&self) -> Option<i128>
        ensures { (is : List AnInstant) → result ≡ first_time (left_of is self.now) }
    {
        match self.pending {
            Pending::Nothing => None,
            Pending::Forth(edge) => Some(edge.time),
            Pending::Back(turn) => Some(turn.time),
        }
    }

    /// Passes the change of an edge.
    fn pass(&mut self, instants: &[Instant], edge: Mark)
        requires small { AreWithin (10 ^ 24) instants.now }
        requires within { self.old.index ≤ length instants.now }
        ensures within { self.new.index ≤ length instants.now }
        ensures left { left_of instants.now self.new
            ≡ changes_after self.old.keep (edge_of edge) (edges_from self.old.channel instants.now self.old.index) }
    {
        let Some(found) = next_edge(instants, self.channel, self.index) else {
            self.pending = Pending::Nothing;
            return;
        };
        self.index = found.index;
        self.pending = match self.keep {
            Keep::Both => Pending::Forth(found.edge),
            Keep::Rising | Keep::Falling => Pending::Back(Turn {
                time: halfway(edge, found.edge),
                level: !level_after(edge.polarity),
                edge: found.edge,
            }),
        };
    }

    /// Passes the next change, where it is at this time, and gives its level.
    pub fn take_at(&mut self, instants: &[Instant], time: i128) -> Option<bool>
        requires small { AreWithin (10 ^ 24) instants.now }
        requires within { self.old.index ≤ length instants.now }
        ensures within { self.new.index ≤ length instants.now }
        ensures taken { IsTaken time (left_of instants.now self.old) result (left_of instants.now self.new) }
    {
        match self.pending {
            Pending::Forth(edge) if edge.time == time => {
                self.pass(instants, edge);
                Some(level_after(edge.polarity))
            }
            Pending::Back(turn) if turn.time == time => {
                self.pending = Pending::Forth(turn.edge);
                Some(turn.level)
            }
            Pending::Nothing | Pending::Forth(_) | Pending::Back(_) => None,
        }
    }
}
