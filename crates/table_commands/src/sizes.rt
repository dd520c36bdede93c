//! The command `size`.
ghost use Rattle.std.specs.Prelude.{◌≡◌, ◌++◌, [], None, IfOk, OnOk, decimal, string_bytes};
ghost use Rattle.run_ends.specs.Serving.{Served, stream};
ghost use Rattle.table_commands.specs.Size.{IsSize, size_text};

use crate::load::load_nfa;
use crate::states::count_states;
use run_ends::{Cause, Done, put};
use shelf_io::{Shelf, Sink};
use std::alloc::{AllocError, Global};
use std::fmt::Write;

/// Puts a name and a number at the end of a line.
fn push_count(line: &mut String, name: &str, number: u32) -> Result<(), AllocError>
    ensures { OnOk result (string_bytes line.new ≡ string_bytes line.old ++ name.now ++ decimal number) }
{
    line.push_str(name)?;
    if write!(line, "{number}").is_err() {
        return Err(AllocError);
    }
    Ok(())
}

/// The line of a table's sizes.
fn size_line(
    alloc: Global,
    places: u32,
    times: u32,
    ratios: u32,
    states: u32,
) -> Result<String, AllocError>
    ensures { IfOk result (λ line. string_bytes line ≡ size_text (record { places = places; times = times; ratios = ratios; states = states })) }
{
    let mut line = String::new(alloc);
    push_count(&mut line, "places ", places)?;
    push_count(&mut line, " time-cuts ", times)?;
    push_count(&mut line, " ratio-cuts ", ratios)?;
    push_count(&mut line, " states ", states)?;
    line.push_str("\n")?;
    Ok(line)
}

/// Tells the sizes of a wheel's table: its places, the cuts of its limits on speed and on the ratio of speeds, and the states.
pub fn size<S: Shelf, O: Sink>(
    alloc: Global,
    wheel: &str,
    shelf: &mut S,
    out: &mut O,
) -> Result<Done, Cause>
    ensures { Served (IsSize (S.view shelf.old) wheel.now) None (S.view shelf.old) (S.view shelf.new)
        (stream (O.faults out.old) (O.taken out.old) (O.steady out.old)) (stream (O.faults out.new) (O.taken out.new) (O.steady out.new)) [] result }
{
    let nfa = load_nfa(alloc, shelf, wheel)?;
    let states = count_states(alloc, &nfa)?;
    let cuts = nfa.cuts();
    let line = match size_line(
        alloc,
        nfa.place_count(),
        cuts.time_count(),
        cuts.ratio_count(),
        states,
    ) {
        Ok(line) => line,
        Err(AllocError) => return Err(Cause::Memory),
    };
    put(out, line.as_bytes())?;
    Ok(Done::Whole)
}
