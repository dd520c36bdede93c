//! Reading certificates.
ghost use Rattle.std.specs.Prelude.{◌≡◌, ℕ, IfOk, IfErr, MatchOption};
ghost use Rattle.pair_certificate.specs.declared.line.CertLine.{CertLine as Line};
ghost use Rattle.pair_certificate.specs.Readings.{IsCertLine, MeansCertificate, IsFirstBadLine};

use crate::cert_first::{cover_of, head_at};
use crate::certificate::cert_line;
use crate::line::CertLine;
use crate::read::line_end;
use std::alloc::{AllocFailed, Global};
use wheel_types::Memory;

/// Why a certificate is not read.
#[derive(Clone, Copy, Debug, PartialEq, Eq)]
pub enum CertFault {
    /// The line of this number, from 1, is the first that is not one of a certificate.
    BadLine { at: u64 },
    /// Want of memory.
    Memory,
}

impl From<Memory> for CertFault {
    ghost use Rattle.pair_certificate.specs.declared.cert_read.CertFault.TheVariants.{Memory as WantsMemory};

    ghost from_gives = { λ _ fault. fault ≡ WantsMemory };

    fn from(_: Memory) -> Self {
        CertFault::Memory
    }
}

impl<T: Drop> From<AllocFailed<T>> for CertFault {
    ghost use Rattle.pair_certificate.specs.declared.cert_read.CertFault.TheVariants.{Memory as WantsMemory};

    ghost from_gives = { λ _ fault. fault ≡ WantsMemory };

    fn from(_: AllocFailed<T>) -> Self {
        CertFault::Memory
    }
}

/// The record of a line, if it is one of a certificate: the line is printed again and compared.
fn read_line(alloc: Global, line: &[u8]) -> Result<Option<CertLine>, Memory>
    ensures { IfOk result (λ value. MatchOption value ((c : Line) → IsCertLine line.now c → ⊥) (λ c. IsCertLine line.now c)) }
{
    let Some((index, kind, rest)) = head_at(line) else {
        return Ok(None);
    };
    let Some(cover) = cover_of(alloc, rest)? else {
        return Ok(None);
    };
    let value = CertLine { index, kind, cover };
    let text = cert_line(alloc, &value)?;
    if text.as_slice() == line {
        Ok(Some(value))
    } else {
        Ok(None)
    }
}

/// The certificate that a text means: its lines are exactly those that `cert_line` prints, with an index of 64 bits and places of
/// 32 bits. No line at all is an empty certificate.
///
/// # Errors
/// `BadLine` with the first line that is none of a certificate, counted from 1; want of memory.
pub fn read_certificate(alloc: Global, bytes: &[u8]) -> Result<Vec<CertLine>, CertFault>
    ensures value { IfOk result (λ lines. MeansCertificate bytes.now lines.items) }
    ensures bad { IfErr result (λ fault. (at : ℕ) → fault ≡ CertFault.BadLine at → IsFirstBadLine IsCertLine bytes.now at) }
{
    let mut lines = Vec::new(alloc);
    let mut rest = bytes;
    while !rest.is_empty() {
        let end = line_end(rest);
        let Some(line) = read_line(alloc, &rest[..end])? else {
            return Err(CertFault::BadLine {
                at: lines.len() as u64 + 1,
            });
        };
        lines.push(line)?;
        rest = &rest[end..];
    }
    Ok(lines)
}
