//! The line of an instant.
ghost use Rattle.std.specs.Prelude.{◌≡◌, IfOk, codes, string_bytes};
ghost use Rattle.wheel_types.specs.Texts.{change_text};
ghost use Rattle.image_commands.specs.Trace.{state_line};

use std::alloc::Global;
use std::fmt::Write;
use wheel_types::{Instant, Memory, Pol};

/// Room for every line but those of very long times, so that it is made in one piece.
const LINE_ROOM: usize = 64;

/// How the crank changed.
fn crank_change(edge: Option<Pol>) -> &'static str
    ensures { result.now ≡ change_text (codes "C") edge }
{
    match edge {
        None => "",
        Some(Pol::Rise) => "C+",
        Some(Pol::Fall) => "C-",
    }
}

/// How the first cam changed.
fn cam1_change(edge: Option<Pol>) -> &'static str
    ensures { result.now ≡ change_text (codes "1") edge }
{
    match edge {
        None => "",
        Some(Pol::Rise) => "1+",
        Some(Pol::Fall) => "1-",
    }
}

/// How the second cam changed.
fn cam2_change(edge: Option<Pol>) -> &'static str
    ensures { result.now ≡ change_text (codes "2") edge }
{
    match edge {
        None => "",
        Some(Pol::Rise) => "2+",
        Some(Pol::Fall) => "2-",
    }
}

/// The line of an instant of this number, `INDEX TIME SHAPE state Q` and a line feed. The time is in femtoseconds; the shape joins the
/// edges of crank, `C`, first cam, `1`, and second cam, `2`, each with `+` where it rises and `-` where it falls.
///
/// # Errors
/// Want of memory.
pub fn state_line(
    alloc: Global,
    index: u64,
    instant: &Instant,
    state: u32,
) -> Result<String, Memory>
    ensures { IfOk result (λ line. string_bytes line ≡ state_line index instant.now state) }
{
    let time = instant.time;
    let crank = crank_change(instant.crank);
    let cam1 = cam1_change(instant.cam1);
    let cam2 = cam2_change(instant.cam2);
    let mut line = String::with_capacity(alloc, LINE_ROOM)?;
    if writeln!(line, "{index} {time} {crank}{cam1}{cam2} state {state}").is_err() {
        return Err(Memory);
    }
    Ok(line)
}
