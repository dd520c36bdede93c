//! Loading reports and certificates.
ghost use Rattle.run_ends.specs.Loads.{Loads};
ghost use Rattle.run_files.specs.Files.{HasReport, HasCertificate};
ghost use Rattle.run_files.specs.Causes.{ReportGives, CertificateGives};

use crate::loads::load;
use pair_certificate::{CertFault, CertLine, ReportFault, read_certificate, read_report};
use run_ends::{Cause, Refusal};
use shelf_io::Shelf;
use std::alloc::Global;
use wheel_types::Report;

/// Reads the report of a file, line by line.
///
/// # Errors
/// `Refusal::Report` with the first line that is none of a report; `ReadFault`, `Limit::File` or `Memory`.
pub fn load_report<S: Shelf>(alloc: Global, shelf: &mut S, name: &str) -> Result<Vec<Report>, Cause>
    ensures { Loads (S.view shelf.old) (S.view shelf.old) (S.view shelf.new) name.now (ReportGives (S.view shelf.old).file name.now) (λ reports. HasReport (S.view shelf.old).file name.now reports.items) result }
{
    let bytes = load(alloc, shelf, name)?;
    match read_report(alloc, &bytes) {
        Ok(reports) => Ok(reports),
        Err(ReportFault::BadLine { at }) => Err(Cause::Refused(Refusal::Report { at })),
        Err(ReportFault::Memory) => Err(Cause::Memory),
    }
}

/// Reads the certificate of a file, line by line.
///
/// # Errors
/// `Refusal::Certificate` with the first line that is none of a certificate; `ReadFault`, `Limit::File` or `Memory`.
pub fn load_certificate<S: Shelf>(
    alloc: Global,
    shelf: &mut S,
    name: &str,
) -> Result<Vec<CertLine>, Cause>
    ensures { Loads (S.view shelf.old) (S.view shelf.old) (S.view shelf.new) name.now (CertificateGives (S.view shelf.old).file name.now) (λ lines. HasCertificate (S.view shelf.old).file name.now lines.items) result }
{
    let bytes = load(alloc, shelf, name)?;
    match read_certificate(alloc, &bytes) {
        Ok(lines) => Ok(lines),
        Err(CertFault::BadLine { at }) => Err(Cause::Refused(Refusal::Certificate { at })),
        Err(CertFault::Memory) => Err(Cause::Memory),
    }
}
