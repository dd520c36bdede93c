//! Fractions in lowest terms.
ghost use Rattle.std.specs.Prelude.{◌≡◌, ◌≤◌, ◌*◌, IsTrue, ◌↔◌};
ghost use Rattle.gap_thresholds.specs.Fractions.{IsLowest, IsBelow, IsEqual};

use crate::divisor::common_divisor;

/// A fraction, `top / bottom`.
#[derive(Clone, Copy, Debug, PartialEq, Eq)]
pub struct Cut {
    pub top: u64,
    pub bottom: u64,
}

impl Cut {
    /// A whole number.
    pub fn whole(number: u64) -> Cut
        ensures { (result.top ≡ number) × (result.bottom ≡ 1) }
    {
        Cut {
            top: number,
            bottom: 1,
        }
    }

    /// The fraction in lowest terms. It asks a bottom above 0.
    pub fn lowest(top: u64, bottom: u64) -> Cut
        requires { 1 ≤ bottom }
        ensures lowest { IsLowest result }
        ensures equal { IsEqual result top bottom }
        ensures top { result.top ≤ top }
        ensures bottom { result.bottom ≤ bottom }
    {
        let divisor = common_divisor(top, bottom);
        Cut {
            top: top / divisor,
            bottom: bottom / divisor,
        }
    }

    /// Whether it is below a fraction.
    pub fn is_below(&self, top: u64, bottom: u64) -> bool
        ensures { IsTrue result ↔ IsBelow self.now top bottom }
    {
        u128::from(self.top) * u128::from(bottom) < u128::from(top) * u128::from(self.bottom)
    }

    /// Whether it is equal to a fraction.
    pub fn equals(&self, top: u64, bottom: u64) -> bool
        ensures { IsTrue result ↔ IsEqual self.now top bottom }
    {
        u128::from(self.top) * u128::from(bottom) == u128::from(top) * u128::from(self.bottom)
    }
}
