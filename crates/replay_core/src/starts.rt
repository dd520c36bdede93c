//! Where motions began that end at a place.
ghost use Rattle.std.specs.Prelude.{◌≡◌, ◌≤◌, ◌<◌, ◌^◌, ◌-ℤ◌, ◌*ℤ◌, pos, unsigned_abs};
ghost use Rattle.std.specs.Int.{saturate_signed, w32};
ghost use Rattle.wheel_types.specs.declared.parts.WheelParts.{WheelParts};
ghost use Rattle.replay_core.specs.Counts.{place_back};

use crate::counts::EdgeCounts;
use image_format::View;
use wheel_types::{Channel, Place};

/// How many edges of each channel the wheel keeps in a cycle.
#[derive(Clone, Copy, Debug)]
pub struct CycleEdges {
    pub crank: u32,
    pub cam1: u32,
    pub cam2: u32,
}

/// A number, cut down to the nearest end of the range of 32 bits where it is past it.
fn cut(number: i128) -> i32
    ensures { result ≡ saturate_signed w32 number }
{
    if number > i128::from(i32::MAX) {
        i32::MAX
    } else if number < i128::from(i32::MIN) {
        i32::MIN
    } else {
        number as i32
    }
}

/// The edges of so many cycles.
fn edges_of(cycles: i128, edges: u32) -> i128
    requires { unsigned_abs cycles ≤ 2 ^ 65 }
    ensures value { result ≡ cycles *ℤ pos edges }
    ensures small { unsigned_abs result ≤ 2 ^ 97 }
{
    cycles * i128::from(edges)
}

/// A cam's next edge before so many edges were passed, carried back by whole cycles of so many edges.
fn index_back(index: i32, passed: u64, cycle: i128, edges: u32) -> i32
    requires cycle { unsigned_abs cycle ≤ 2 ^ 65 }
    ensures { result ≡ saturate_signed w32 ((index -ℤ pos passed) -ℤ cycle *ℤ pos edges) }
{
    let turns = edges_of(cycle, edges);
    cut(i128::from(index) - i128::from(passed) - turns)
}

impl CycleEdges {
    ghost use Rattle.replay_core.specs.Counts.{AreEdgesIn};
    ghost use Rattle.image_layout.specs.Fields.{wheel_parts_of};

    /// Those of an image's wheel.
    pub fn of(view: &View<'_>) -> CycleEdges
        ensures edges { AreEdgesIn (wheel_parts_of view.now.bytes.now) result }
        ensures some { 0 < result.crank }
    {
        CycleEdges {
            crank: view.crank_count(),
            cam1: view.cam_count(Channel::Cam1),
            cam2: view.cam_count(Channel::Cam2),
        }
    }

    /// The place where motions began that end at a place and passed so many edges, its indices cut down to 32 bits.
    pub fn start(self, end: Place, passed: EdgeCounts) -> Place
        requires { 0 < self.crank }
        ensures { (w : WheelParts) → AreEdgesIn w self → result ≡ place_back w passed end }
    {
        let edges = i128::from(self.crank);
        let behind = i128::from(end.j) - i128::from(passed.crank);
        let cycle = behind.div_euclid(edges);
        Place {
            j: behind.rem_euclid(edges) as u32,
            n1: index_back(end.n1, passed.cam1, cycle, self.cam1),
            n2: index_back(end.n2, passed.cam2, cycle, self.cam2),
        }
    }
}
