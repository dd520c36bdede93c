//! The line of a certificate.
ghost use Rattle.std.specs.Prelude.{◌≡◌, ◌++◌, IfOk, OnOk, string_bytes};
ghost use Rattle.wheel_types.specs.Texts.{place_text};
ghost use Rattle.pair_certificate.specs.Certificates.{kind_text, cover_text, cert_line_text};

use crate::line::{CertKind, CertLine};
use crate::report::push_place;
use std::alloc::Global;
use std::fmt::Write;
use wheel_types::{Memory, Place};

/// Puts what a line says at the end of it.
fn push_kind(line: &mut String, kind: CertKind) -> Result<(), Memory>
    ensures { OnOk result (string_bytes line.new ≡ string_bytes line.old ++ kind_text kind) }
{
    match kind {
        CertKind::At { a } => {
            line.push_str("at ")?;
            push_place(line, a)?;
            Ok(())
        }
        CertKind::Open { a, b } => {
            line.push_str("open ")?;
            push_place(line, a)?;
            line.push_str(" ")?;
            push_place(line, b)?;
            Ok(())
        }
        CertKind::Lost => {
            line.push_str("lost")?;
            Ok(())
        }
    }
}

/// Puts the places of a cover at the end of a line, a space before each.
fn push_cover(line: &mut String, cover: &[Place]) -> Result<(), Memory>
    ensures { OnOk result (string_bytes line.new ≡ string_bytes line.old ++ cover_text cover.now) }
{
    for place in cover {
        line.push_str(" ")?;
        push_place(line, *place)?;
    }
    Ok(())
}

/// The line of a certificate, `INDEX KIND : COVER` and a line feed. The kind is `at PLACE`, `open PLACE PLACE` or `lost`; the
/// cover is places, `j:n1:n2`, with a blank before each.
///
/// # Errors
/// Want of memory.
pub fn cert_line(alloc: Global, line: &CertLine) -> Result<Vec<u8>, Memory>
    ensures { IfOk result (λ text. text.items ≡ cert_line_text line.now) }
{
    let index = line.index;
    let mut text = String::new(alloc);
    if write!(text, "{index} ").is_err() {
        return Err(Memory);
    }
    push_kind(&mut text, line.kind)?;
    text.push_str(" :")?;
    push_cover(&mut text, line.cover.as_slice())?;
    text.push_str("\n")?;
    Ok(text.into_bytes())
}
