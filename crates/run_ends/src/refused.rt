//! Faults of what a file holds. Want of memory is none.
ghost use Rattle.std.specs.Prelude.{◌≢◌};
ghost use Rattle.wheel_pattern.specs.declared.fault.PatternFault.TheVariants as pattern;
ghost use Rattle.c_tables.specs.declared.fault.TableFault.TheVariants as table;
ghost use Rattle.audit_faults.specs.declared.fault.AuditFault.TheVariants as audit;

use audit_faults::AuditFault;
use wheel_pattern::{PatternFault, TableFault};

/// Why a model is no wheel file.
#[derive(Clone, Copy, Debug, PartialEq, Eq)]
pub struct NoWheel {
    pub fault: PatternFault,
    pub ghost of_the_file: { fault ≢ pattern.Memory },
}

/// Why a source has no table of a name.
#[derive(Clone, Copy, Debug, PartialEq, Eq)]
pub struct NoTable {
    pub fault: TableFault,
    pub ghost of_the_file: { fault ≢ table.Memory },
}

/// Why an image that keeps its layout does not hold the table of its own wheel.
#[derive(Clone, Copy, Debug, PartialEq, Eq)]
pub struct NotSound {
    pub fault: AuditFault,
    pub ghost of_the_file: { fault ≢ audit.Memory },
}
