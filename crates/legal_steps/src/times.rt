//! The times of a window's last crank edges.
ghost use Rattle.std.specs.Prelude.{◌≡◌, ◌∷◌, take};
ghost use Rattle.legal_steps.specs.Times.{times_of, AreSmall, IsSmall};

/// The times of a window's last two crank edges, as far as there are, in femtoseconds.
#[derive(Clone, Copy, Debug)]
pub enum CrankTimes {
    /// No crank edge yet.
    Unseen,
    /// One crank edge.
    Once { last: i128 },
    /// Two or more: the last one, and the one before it.
    Twice { last: i128, before: i128 },
}

impl CrankTimes {
    /// The times after one more crank edge.
    pub fn and(self, time: i128) -> CrankTimes
        requires few { AreSmall self }
        requires small { IsSmall time }
        ensures times { times_of result ≡ take 2 (time ∷ times_of self) }
        ensures small { AreSmall result }
    {
        match self {
            CrankTimes::Unseen => CrankTimes::Once { last: time },
            CrankTimes::Once { last } | CrankTimes::Twice { last, .. } => CrankTimes::Twice {
                last: time,
                before: last,
            },
        }
    }
}
