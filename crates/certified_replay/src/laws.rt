//! Laws of replays with a certificate.
ghost use Rattle.certified_replay.specs.Laws.{OwnAreNotDenied, WheelFilesAreTheirOwn};

/// A check never says no to the report and the certificate that a replay wrote, over a file of the model's wheel; a model's file that is no
/// image is one itself.
pub fn own_certificates_are_not_denied()
    ensures law { OwnAreNotDenied }
    ensures same_file { WheelFilesAreTheirOwn }
{}
