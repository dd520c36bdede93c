//! The command `stim`.
ghost use Rattle.std.specs.Prelude.{◌≡◌, ◌≤◌, [], Some, IfOk, IfErr, OnOk};
ghost use Rattle.run_ends.specs.Serving.{Served, Stream};
ghost use Rattle.run_ends.specs.Works.{StopsJudge};
ghost use Rattle.stimulus_commands.specs.Stimuli.{HasStimulus, StimGives};
ghost use Rattle.stimulus_commands.specs.Stim.{IsFileText, IsStim, IsStimText};

use crate::stimuli::stimulus_of;
use command_words::Form;
use run_ends::{Cause, Done, make_file};
use run_files::load_any_wheel;
use shelf_io::Shelf;
use std::alloc::Global;
use stimulus::Stimulus;
use wheel_types::{Memory, Wheel};

/// The file of a stimulus, in a form.
fn text_of(alloc: Global, made: &Stimulus, form: Form) -> Result<Vec<u8>, Memory>
    ensures { IfOk result (λ text. IsFileText form made.now.watch made.now.instants.items text.items) }
{
    match form {
        Form::Vcd => made.write_vcd(alloc),
        Form::Csv => made.write_csv(alloc),
    }
}

/// The file of a wheel's stimulus, in a form.
///
/// # Errors
/// In this order: `Refusal::Stuck` where the limits leave a gap no time; `Limit::Edges` past 4,000,000 edges; `Memory`.
fn stim_text(
    alloc: Global,
    wheel: &Wheel,
    form: Form,
    seed: u64,
    gaps: u32,
) -> Result<Vec<u8>, Cause>
    requires some { 1 ≤ gaps }
    requires few { gaps ≤ 1_000_000 }
    ensures text { IfOk result (λ text. IsStimText wheel.now.parts form seed gaps text.items) }
    ensures passes { OnOk result (HasStimulus wheel.now.parts seed gaps) }
    ensures kinds { IfErr result (StopsJudge (StimGives wheel.now.parts seed gaps)) }
{
    let made = stimulus_of(alloc, wheel, seed, gaps)?;
    match text_of(alloc, &made, form) {
        Ok(text) => Ok(text),
        Err(Memory) => Err(Cause::Memory),
    }
}

/// Writes a stimulus of the wheel of one file into another: so many gaps, from 1 to 1,000,000, drawn from a seed. The wheel may have any
/// number of places. The file is created only when its text is made; where writing stops it has a front of it. Nothing is written on out.
///
/// # Errors
/// In this order: those of `load_any_wheel`; `Refusal::Stuck` where the limits leave a gap no time; `Limit::Edges` past 4,000,000 edges;
/// `WriteFault` where the file is not created or written. `Memory` at any of them.
pub fn stim_file<S: Shelf>(
    alloc: Global,
    wheel: &str,
    form: Form,
    seed: u64,
    gaps: u32,
    file: &str,
    shelf: &mut S,
) -> Result<Done, Cause>
    requires some { 1 ≤ gaps }
    requires few { gaps ≤ 1_000_000 }
    ensures { (out : Stream) → Served (IsStim (S.view shelf.old) wheel.now form seed gaps file.now) (Some file.now) (S.view shelf.old) (S.view shelf.new) out out [] result }
{
    let wheel = load_any_wheel(alloc, shelf, wheel)?;
    let text = stim_text(alloc, &wheel, form, seed, gaps)?;
    make_file(shelf, file, &text)?;
    Ok(Done::Whole)
}
