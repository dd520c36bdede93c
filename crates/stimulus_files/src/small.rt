//! Whether files of instants can be written.
ghost use Rattle.std.specs.Prelude.{◌≤◌, ◌^◌, ◌↔◌, IsTrue, length, pos};
ghost use Rattle.wheel_types.specs.Verdicts as verdicts;
ghost use Rattle.stimulus_files.specs.Changes.{edges_on};
ghost use Rattle.stimulus_files.specs.Tracks.{changes_if};
ghost use Rattle.stimulus_files.specs.Written.{AreSmall, AreWithin, RiseFrom};

use crate::track::Track;
use capture_core::{LAST_TIME, Watch};
use wheel_types::{Channel, Instant, Keep};

/// No time is past the greatest of a capture.
fn are_within(instants: &[Instant]) -> bool
    ensures { IsTrue result ↔ verdicts.AreWithin (10 ^ 24) instants.now }
{
    for instant in instants {
        if instant.time.unsigned_abs() > LAST_TIME {
            return false;
        }
    }
    true
}

/// The changes of a channel, if it is watched, come after time 0, one after the other, and at most at the greatest time of a capture.
fn are_small(instants: &[Instant], channel: Channel, watched: Option<Keep>) -> bool
    requires { verdicts.AreWithin (10 ^ 24) instants.now }
    ensures { IsTrue result ↔ (RiseFrom (pos 0) (changes_if watched (edges_on channel instants.now))
        × AreWithin (changes_if watched (edges_on channel instants.now))) }
{
    let mut track = Track::begin(instants, channel, watched).track;
    let mut last = 0;
    'changes: while let Some(time) = track.time() {
        if time <= last || time.unsigned_abs() > LAST_TIME {
            return false;
        }
        track.take_at(instants, time);
        last = time;
    }
    true
}

/// Whether `write_vcd` and `write_csv` take these instants: no time is past 10^24 femtoseconds, and the changes of each watched channel
/// come after time 0, one after the other. Those of a stimulus are such.
pub fn can_write(watch: Watch, instants: &[Instant]) -> bool
    ensures { IsTrue result ↔ (verdicts.AreWithin (10 ^ 24) instants.now × AreSmall watch instants.now) }
{
    if !are_within(instants) {
        return false;
    }
    let crank = are_small(instants, Channel::Crank, Some(watch.crank));
    let cam1 = are_small(instants, Channel::Cam1, watch.cam1);
    let cam2 = are_small(instants, Channel::Cam2, watch.cam2);
    crank && cam1 && cam2
}
