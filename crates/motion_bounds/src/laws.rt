//! Laws of the limits on speed.
ghost use Rattle.motion_bounds.specs.Times.{CutTimesServe, LimitsFit, TimesAreBetween};

/// The speeds of a wheel allow exactly the times from the least to the greatest.
pub fn times_are_between()
    ensures { TimesAreBetween }
{}

/// No limit is as much as `2^64 - 1`: a time that is cut down to it is allowed exactly where the time is.
pub fn times_fit()
    ensures limits { LimitsFit }
    ensures cut { CutTimesServe }
{}
