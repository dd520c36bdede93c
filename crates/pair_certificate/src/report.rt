//! The line of a report.
ghost use Rattle.std.specs.Prelude.{◌≡◌, ◌≤◌, ◌%◌, ◌/◌, ◌++◌, IfOk, OnOk, codes, string_bytes};
ghost use Rattle.wheel_types.specs.Shapes.{edge_of};
ghost use Rattle.wheel_types.specs.Texts.{change_text, place_text, verdict_text, report_line_text};

use std::alloc::Global;
use std::fmt::Write;
use wheel_types::{Memory, Place, Report, Verdict};

/// Room for every line but the longest, so that it is made in one piece.
const LINE_ROOM: usize = 96;

/// How the crank changed, by its digit of the shape's number.
fn crank_change(digit: u32) -> &'static str
    ensures { result.now ≡ change_text (codes "C") (edge_of digit) }
{
    match digit {
        0 => "",
        1 => "C+",
        _ => "C-",
    }
}

/// How the first cam changed, by its digit of the shape's number.
fn cam1_change(digit: u32) -> &'static str
    ensures { result.now ≡ change_text (codes "1") (edge_of digit) }
{
    match digit {
        0 => "",
        1 => "1+",
        _ => "1-",
    }
}

/// How the second cam changed, by its digit of the shape's number.
fn cam2_change(digit: u32) -> &'static str
    ensures { result.now ≡ change_text (codes "2") (edge_of digit) }
{
    match digit {
        0 => "",
        1 => "2+",
        _ => "2-",
    }
}

/// Puts a place, `j:n1:n2`, at the end of a line.
pub(crate) fn push_place(line: &mut String, place: Place) -> Result<(), Memory>
    ensures { OnOk result (string_bytes line.new ≡ string_bytes line.old ++ place_text place) }
{
    let Place { j, n1, n2 } = place;
    match write!(line, "{j}:{n1}:{n2}") {
        Ok(()) => Ok(()),
        Err(_) => Err(Memory),
    }
}

/// Puts a verdict at the end of a line.
fn push_verdict(line: &mut String, verdict: Verdict) -> Result<(), Memory>
    ensures { OnOk result (string_bytes line.new ≡ string_bytes line.old ++ verdict_text verdict) }
{
    match verdict {
        Verdict::At { j, slot } => match write!(line, "at {j} slot {slot}") {
            Ok(()) => Ok(()),
            Err(_) => Err(Memory),
        },
        Verdict::Open { a, b } => {
            line.push_str("open ")?;
            push_place(line, a)?;
            line.push_str(" ")?;
            push_place(line, b)?;
            Ok(())
        }
        Verdict::Lost => {
            line.push_str("lost")?;
            Ok(())
        }
    }
}

/// The line of a report, `INDEX TIME SHAPE VERDICT` and a line feed. The time is in femtoseconds; the shape joins the edges of
/// crank, `C`, first cam, `1`, and second cam, `2`, each with `+` where it rises and `-` where it falls; the verdict is
/// `at J slot S`, `open PLACE PLACE` or `lost`, and a place `j:n1:n2`.
///
/// # Errors
/// Want of memory.
pub fn report_line(alloc: Global, report: &Report) -> Result<Vec<u8>, Memory>
    ensures { IfOk result (λ line. line.items ≡ report_line_text report.now) }
{
    let (index, time, shape) = (report.index, report.time, report.shape.number());
    let crank = crank_change(shape % 3);
    let cam1 = cam1_change(shape / 3 % 3);
    let cam2 = cam2_change(shape / 9);
    let mut line = String::with_capacity(alloc, LINE_ROOM)?;
    if write!(line, "{index} {time} {crank}{cam1}{cam2} ").is_err() {
        return Err(Memory);
    }
    push_verdict(&mut line, report.verdict)?;
    line.push_str("\n")?;
    Ok(line.into_bytes())
}
