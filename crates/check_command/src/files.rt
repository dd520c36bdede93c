//! The command `check`.
ghost use Rattle.std.specs.Prelude.{◌≡◌, ◌^◌, [], None, IfOk, IfErr};
ghost use Rattle.wheel_types.specs.Verdicts.{IsRising, AreWithin};
ghost use Rattle.cam_ranges.specs.Places.{HasTooMany};
ghost use Rattle.capture_core.specs.declared.capture.End.{End as Ending};
ghost use Rattle.command_words.specs.Options.{options_of};
ghost use Rattle.certificate_checker.specs.Answers.{IsAnswer};
ghost use Rattle.shelf_traits.specs.Shelf.{View};
ghost use Rattle.run_ends.specs.Works.{Writes};
ghost use Rattle.run_ends.specs.Serving.{Served, stream};
ghost use Rattle.check_command.specs.Check.{IsCheck, IsAnswered};

use crate::answer::{answer_line, ended_by};
use capture_core::Capture;
use certificate_checker::{Answer, CheckFault, check};
use command_words::Options;
use named_captures::load_clean;
use pair_certificate::CertLine;
use run_ends::{Cause, Done, put};
use run_files::{load_certificate, load_model, load_report};
use shelf_io::{Shelf, Sink};
use std::alloc::Global;
use wheel_types::{Report, Wheel};

/// What a check answers of a wheel that has no more places than a set of them takes.
fn answer_of(
    alloc: Global,
    wheel: &Wheel,
    capture: &Capture,
    report: &[Report],
    cert: &[CertLine],
) -> Result<Answer, Cause>
    requires clean { capture.now.end ≡ Ending.Clean }
    requires rising { IsRising capture.now.instants }
    requires sizes { AreWithin (10 ^ 24) capture.now.instants }
    requires few { ¬ HasTooMany wheel.now.parts }
    ensures answer { IfOk result (λ answer. IsAnswer wheel.now.parts capture.now.instants report.now cert.now answer) }
    ensures kinds { IfErr result (λ e. e ≡ Cause.Memory) }
{
    match check(alloc, wheel, capture, report, cert) {
        Ok(answer) => Ok(answer),
        Err(CheckFault::Memory) => Err(Cause::Memory),
        Err(CheckFault::TooManyPlaces) => unreachable!(),
    }
}

/// Writes the answer of a check. It touches no shelf.
fn put_answer<O: Sink>(
    alloc: Global,
    wheel: &Wheel,
    capture: &Capture,
    report: &[Report],
    cert: &[CertLine],
    out: &mut O,
) -> Result<Done, Cause>
    requires clean { capture.now.end ≡ Ending.Clean }
    requires rising { IsRising capture.now.instants }
    requires sizes { AreWithin (10 ^ 24) capture.now.instants }
    requires few { ¬ HasTooMany wheel.now.parts }
    ensures { (v : View) → Served (Writes (IsAnswered wheel.now.parts capture.now report.now cert.now)) None v v
        (stream (O.faults out.old) (O.taken out.old) (O.steady out.old)) (stream (O.faults out.new) (O.taken out.new) (O.steady out.new)) [] result }
{
    let answer = answer_of(alloc, wheel, capture, report, cert)?;
    let Ok(line) = answer_line(alloc, answer) else {
        return Err(Cause::Memory);
    };
    put(out, line.as_str().as_bytes())?;
    ended_by(answer)
}

/// Checks the certificate of one file for the report of another, over a wheel and a capture that ends clean. On out comes `yes`, or
/// `no INSTANT RULE` with the first instant, from 1, that has a broken rule, and the number, from 1 to 9, of its first one.
pub fn check_files<S: Shelf, O: Sink>(
    alloc: Global,
    wheel: &str,
    capture: &str,
    report: &str,
    cert: &str,
    options: Options<'_>,
    shelf: &mut S,
    out: &mut O,
) -> Result<Done, Cause>
    ensures { Served (IsCheck (S.view shelf.old) wheel.now capture.now report.now cert.now (options_of options.entry)) None (S.view shelf.old) (S.view shelf.new)
        (stream (O.faults out.old) (O.taken out.old) (O.steady out.old)) (stream (O.faults out.new) (O.taken out.new) (O.steady out.new)) [] result }
{
    let model = load_model(alloc, shelf, wheel)?;
    let capture = load_clean(alloc, shelf, capture, options, &model.wheel, &model.edges)?;
    let reports = load_report(alloc, shelf, report)?;
    let lines = load_certificate(alloc, shelf, cert)?;
    put_answer(alloc, &model.wheel, &capture, &reports, &lines, out)
}
