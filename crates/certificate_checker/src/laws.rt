//! Laws of certificates.
ghost use Rattle.certificate_checker.specs.Laws.{ValidReportsAreRight, ExactCertificatesAreValid, ValidIsAnsweredYes};
ghost use Rattle.certificate_checker.specs.Laws.{ExactCertificatesExist, ExactCertificatesAreOne};

/// A valid certificate shows that the report is the verdicts', whoever made the two.
pub fn valid_reports_are_right()
    ensures { ValidReportsAreRight }
{}

/// On every wheel instants whose times rise have an exact certificate, and given instants have one alone.
pub fn exact_certificates_exist()
    ensures exist { ExactCertificatesExist }
    ensures one { ExactCertificatesAreOne }
{}

/// The exact certificate is valid for the report of the verdicts.
pub fn exact_certificates_are_valid()
    ensures { ExactCertificatesAreValid }
{}

/// What is answered of a valid certificate is yes.
pub fn valid_is_answered_yes()
    ensures { ValidIsAnsweredYes }
{}
