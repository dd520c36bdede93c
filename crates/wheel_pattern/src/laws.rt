//! What is true of wheel files, whoever reads them.
ghost use Rattle.wheel_pattern.specs.FirstFaults.{FirstKeysAreTold};
ghost use Rattle.wheel_pattern.specs.Laws.{HaveOneMeaning};

/// A file is a wheel file of one list of parts, or has one fault, and not both.
pub fn files_have_one_meaning()
    ensures { HaveOneMeaning }
{}

/// A key is told as missing exactly where it is the first that must stand and does not, and its value as bad exactly
/// where nothing is missing and the values of all keys before it, in the order of `Key`, are of their kind and range.
pub fn first_keys_are_told()
    ensures { FirstKeysAreTold }
{}
