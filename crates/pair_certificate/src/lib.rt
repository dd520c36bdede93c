//! The texts of reports and certificates.
#![tactic(auto)]

mod cert_first;
mod cert_read;
mod certificate;
mod first;
mod laws;
mod line;
mod numbers;
mod read;
mod report;

pub use cert_read::{CertFault, read_certificate};
pub use certificate::cert_line;
pub use laws::{certificates_read_back, one_certificate, one_report, reports_read_back};
pub use line::{CertKind, CertLine};
pub use read::{ReportFault, read_report};
pub use report::report_line;
