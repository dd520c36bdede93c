//! Columns: the phases that their letters lead to, and what they make of sets.
ghost use Rattle.std.specs.Prelude.{◌≡◌, ◌+◌, ◌<◌, length};
ghost use Rattle.place_words.specs.Words.{IsSet, words_for};
ghost use Rattle.position_nfa.specs.Alphabets as alphabets;
ghost use Rattle.position_nfa.specs.Alphabets.{count, time_classes, ratio_classes};
ghost use Rattle.position_nfa.specs.Letters.{leads};
ghost use Rattle.position_nfa.specs.Sets.{no_places, effect};
ghost use Rattle.position_nfa.specs.Views.{alphabet};

use crate::nfa::Nfa;
use wheel_types::Shape;

/// How many time classes there are.
fn times_of(nfa: &Nfa) -> usize
    ensures { result ≡ time_classes (alphabet nfa.now) }
{
    nfa.cuts().time_count() as usize + 1
}

/// How many ratio classes there are.
fn ratios_of(nfa: &Nfa) -> usize
    ensures { result ≡ ratio_classes (alphabet nfa.now) }
{
    2 * nfa.cuts().ratio_count() as usize + 1
}

/// How many columns a row has: the time classes, then the ratio classes, then the shapes 1 to 26. It takes no memory.
pub fn width(nfa: &Nfa) -> usize
    ensures { result ≡ alphabets.width (alphabet nfa.now) }
{
    times_of(nfa) + ratios_of(nfa) + 26
}

/// Writes the set of no places. It asks the words of a set.
pub fn write_nowhere(nfa: &Nfa, out: &mut [u64])
    requires { length out.old ≡ words_for (count (alphabet nfa.now)) }
    ensures { out.new ≡ no_places (alphabet nfa.now) }
{
    place_words::clear(out);
}

/// The phase that a column's letter leads to, where it is a letter of this phase. It asks a column.
///
/// Phase 0 has seen no crank edge, 1 one, 2 two or more; 3 has timed the first gap, 4 a later one, and 5 knows its ratio to the gap
/// before.
pub fn phase_after(nfa: &Nfa, phase: u8, column: usize) -> Option<u8>
    requires { column < alphabets.width (alphabet nfa.now) }
    ensures { result ≡ leads (time_classes (alphabet nfa.now)) (ratio_classes (alphabet nfa.now)) phase column }
{
    let times = times_of(nfa);
    let classes = times + ratios_of(nfa);
    if column < times {
        if phase == 1 || phase == 2 {
            Some(phase + 2)
        } else {
            None
        }
    } else if column < classes {
        if phase == 4 { Some(5) } else { None }
    } else if (column - classes + 1) % 3 == 0 {
        if phase <= 2 { Some(phase) } else { None }
    } else {
        match phase {
            0 => Some(1),
            3 | 5 => Some(2),
            _ => None,
        }
    }
}

/// Writes what the column's letter makes of the set. It asks a set of places, the words of one, and a column. It takes no memory.
pub fn write_effect(nfa: &Nfa, set: &[u64], column: usize, out: &mut [u64])
    requires set { IsSet (count (alphabet nfa.now)) set.now }
    requires out { length out.old ≡ words_for (count (alphabet nfa.now)) }
    requires column { column < alphabets.width (alphabet nfa.now) }
    ensures { out.new ≡ effect (alphabet nfa.now) column set.now }
{
    let times = times_of(nfa);
    let classes = times + ratios_of(nfa);
    if column < times {
        out.copy_from_slice(set);
        nfa.time_filter(column as u32, out);
    } else if column < classes {
        out.copy_from_slice(set);
        nfa.ratio_filter((column - times) as u32, out);
    } else {
        nfa.shape_step(set, Shape::new((column - classes + 1) as u32), out);
    }
}
