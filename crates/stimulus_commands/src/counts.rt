//! How many verdicts of each kind there are.
ghost use Rattle.std.specs.Prelude.{◌≡◌, ◌≢◌, ◌≤◌, ◌<◌, ◌+◌, ◌++◌, ◌∷◌, ◌^◌, [], List, None, IfOk, reverse, string_bytes};
ghost use Rattle.wheel_types.specs.declared.parts.WheelParts.{WheelParts};
ghost use Rattle.wheel_types.specs.declared.verdict.Verdict.{Verdict as Judgement};
ghost use Rattle.wheel_types.specs.Verdicts.{AreWithin, IsRising};
ghost use Rattle.plain_motion.specs.Sets.{last_of};
ghost use Rattle.run_files.specs.Models.{IsFreshSet};
ghost use Rattle.stimulus_commands.specs.CountsOf.{AreCounts, counts_of, self_text};

use plain_motion::PlainSet;
use std::alloc::{AllocError, Global};
use wheel_types::{Instant, Memory, Verdict};

/// How many instants there are, how many of them are at a position, open and lost, and the number, from 1, of the first that is at one,
/// or 0 where none is.
#[derive(Clone, Copy, Debug, PartialEq, Eq)]
pub struct Counts {
    pub instants: u64,
    pub at: u64,
    pub left_open: u64,
    pub lost: u64,
    pub first: u64,
}

/// The number of the first that is at a position, where one more is that has this number.
fn first_of(first: u64, number: u64) -> u64
    ensures none { first ≡ 0 → result ≡ number }
    ensures some { first ≢ 0 → result ≡ first }
{
    if first == 0 { number } else { first }
}

/// Counts the verdict of one more instant.
fn count(counts: Counts, verdict: Verdict) -> Counts
    requires room { counts.instants + 1 < 2 ^ 64 }
    requires at { counts.at ≤ counts.instants }
    requires left_open { counts.left_open ≤ counts.instants }
    requires lost { counts.lost ≤ counts.instants }
    ensures { (vs : List Judgement) → counts ≡ counts_of vs → result ≡ counts_of (vs ++ verdict ∷ []) }
{
    let instants = counts.instants + 1;
    match verdict {
        Verdict::At { .. } => Counts {
            instants,
            at: counts.at + 1,
            first: first_of(counts.first, instants),
            ..counts
        },
        Verdict::Open { .. } => Counts {
            instants,
            left_open: counts.left_open + 1,
            ..counts
        },
        Verdict::Lost => Counts {
            instants,
            lost: counts.lost + 1,
            ..counts
        },
    }
}

/// Steps instants whose times rise through a fresh set, and counts their verdicts.
pub fn count_verdicts(set: &mut PlainSet, instants: &[Instant]) -> Result<Counts, Memory>
    requires fresh { last_of set.old ≡ None }
    requires rising { IsRising instants.now }
    requires sizes { AreWithin (10 ^ 24) instants.now }
    ensures { IfOk result (λ counts. (w : WheelParts) → IsFreshSet w set.old → AreCounts w instants.now counts) }
{
    let mut counts = Counts {
        instants: 0,
        at: 0,
        left_open: 0,
        lost: 0,
        first: 0,
    };
    for instant in instants {
        let verdict = set.step(instant)?;
        counts = count(counts, verdict);
    }
    Ok(counts)
}

/// The line of the counts, with its line feed.
pub fn counts_line(alloc: Global, counts: Counts) -> Result<String, AllocError>
    ensures { IfOk result (λ line. string_bytes line ≡ self_text counts) }
{
    let Counts {
        instants,
        at,
        left_open,
        lost,
        first,
    } = counts;
    format!(in alloc; "instants {instants} at {at} open {left_open} lost {lost} first {first}\n")
}
