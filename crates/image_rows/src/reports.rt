//! Reports of the walk of an image's table.
ghost use Rattle.std.specs.Prelude.{IsTrue, Some};
ghost use Rattle.sync_machine.specs.Times.{is_before};
ghost use Rattle.replay_core.specs.Sessions.{last_of};

use crate::Told;
use image_format::View;
use pair_certificate::report_line;
use replay_core::Session;
use row_texts::instants_of;
use std::alloc::{AllocError, Global};
use wheel_types::{Instant, Report};

/// Whether the instant is later than the session's last one.
fn is_later(session: &Session<'_>, instant: &Instant) -> bool
    ensures { IsTrue result → IsTrue (is_before (last_of session.now) (Some instant.now.time)) }
{
    match session.last() {
        Some(last) => last < instant.time,
        None => true,
    }
}

/// Adds the line of a report, after those before it.
fn push_line(alloc: Global, told: &mut String, report: &Report) -> Result<(), AllocError> {
    let Ok(line) = report_line(alloc, report) else {
        return Err(AllocError);
    };
    if !told.is_empty() {
        told.push_str("; ")?;
    }
    let text = String::from_utf8_lossy(alloc, line.as_slice())?;
    told.push_str(text.trim_end())?;
    Ok(())
}

/// What is told of the report of an image's walk over the instants of a text, if each is later than the one before it.
pub fn told_of_report(alloc: Global, view: &View<'_>, instants: &str) -> Told {
    let Some(instants) = instants_of(alloc, instants)? else {
        return Ok(None);
    };
    let mut session = Session::new(view.again());
    let mut told = String::new(alloc);
    for instant in instants.as_slice() {
        if !is_later(&session, instant) || session.stepped() == u64::MAX {
            return Ok(None);
        }
        push_line(alloc, &mut told, &session.step(instant))?;
    }
    Ok(Some(told))
}
