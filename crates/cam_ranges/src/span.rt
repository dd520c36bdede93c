//! Spans of angles.
ghost use Rattle.std.specs.Prelude.{pos, ◌≤ℤ◌};

/// The angles from `low` to `high`, both included, within the first two cycles.
#[derive(Clone, Copy, Debug)]
pub struct Span {
    pub low: i64,
    pub high: i64,
    pub ghost some: { low ≤ℤ high },
    pub ghost least: { pos 0 ≤ℤ low },
    pub ghost most: { high ≤ℤ pos 8_589_934_592 },
}

/// The edges of a cam from `first` on, before `end`.
#[derive(Clone, Copy, Debug)]
pub struct Candidates {
    pub first: i32,
    pub end: i32,
}
