//! Instants: all kept edges at one time.
ghost use Rattle.std.specs.Prelude.{◌≡◌, ◌≤◌, ℕ, IsTrue, ◌||◌, is_some, false};
ghost use Rattle.wheel_types.specs.Shapes.{shape_number};

use crate::Pol;
use std::marker::Model;

/// All kept edges at one time stamp, which may have happened in any order. `time` is in femtoseconds.
#[derive(Clone, Copy, Debug, PartialEq, Eq)]
pub struct Instant {
    pub time: i128,
    pub crank: Option<Pol>,
    pub cam1: Option<Pol>,
    pub cam2: Option<Pol>,
    /// Some channel has an edge.
    pub ghost some_edge: { IsTrue (is_some crank || (is_some cam1 || is_some cam2)) },
}

impl Default for Instant {
    ghost use Rattle.std.specs.Prelude.{Some, None, pos};
    ghost use Rattle.wheel_types.specs.declared.channel.Pol.TheVariants.{Rise};

    ghost is_default = { λ i. (i.time ≡ pos 0) × (i.crank ≡ Some Rise) × (i.cam1 ≡ None) × (i.cam2 ≡ None) };

    /// A rising crank edge at time 0, and no other.
    fn default() -> Instant {
        Instant {
            time: 0,
            crank: Some(Pol::Rise),
            cam1: None,
            cam2: None,
        }
    }
}

/// Which channels have an edge in an instant, and of which polarity: a number from 1 to 26, which is
/// `c + 3 * a + 9 * b` where c, a and b are 0 for no edge, 1 for a rising and 2 for a falling one on the crank,
/// the first and the second cam.
#[derive(Clone, Copy, Debug, PartialEq, Eq)]
pub struct Shape {
    number: u32,
}

impl Model for Shape {
    ghost Value = { ℕ };

    ghost view = { λ s. s.number };

    ghost invariant = { λ s. (1 ≤ s.number) × (s.number ≤ 26) };

    ghost inverse = { λ n. record { number = n } };
}

impl Shape {
    /// The shape of this number.
    pub fn new(number: u32) -> Shape
        requires least { 1 ≤ number }
        requires most { number ≤ 26 }
        ensures { result ≡ number }
    {
        Shape { number }
    }

    /// Its number, from 1 to 26.
    pub fn number(&self) -> u32
        ensures number { result ≡ self.now }
        ensures least { 1 ≤ result }
        ensures most { result ≤ 26 }
    {
        self.number
    }
}

fn digit(edge: Option<Pol>) -> u32
    ensures { result ≡ Rattle.wheel_types.specs.Shapes.digit_of edge }
{
    match edge {
        None => 0,
        Some(Pol::Rise) => 1,
        Some(Pol::Fall) => 2,
    }
}

impl Instant {
    /// The instant's shape.
    pub fn shape(&self) -> Shape
        ensures { result ≡ shape_number self.now.crank self.now.cam1 self.now.cam2 }
    {
        Shape::new(digit(self.crank) + 3 * digit(self.cam1) + 9 * digit(self.cam2))
    }
}
