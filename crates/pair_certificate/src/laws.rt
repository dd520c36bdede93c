//! Laws of the texts of reports and certificates.
ghost use Rattle.pair_certificate.specs.Laws.{OneReport, OneCertificate, ReportsReadBack, CertificatesReadBack};

/// A text means one report.
pub fn one_report()
    ensures { OneReport }
{}

/// A text means one certificate.
pub fn one_certificate()
    ensures { OneCertificate }
{}

/// The joined lines of a report mean it.
pub fn reports_read_back()
    ensures { ReportsReadBack }
{}

/// The joined lines of a certificate mean it.
pub fn certificates_read_back()
    ensures { CertificatesReadBack }
{}
