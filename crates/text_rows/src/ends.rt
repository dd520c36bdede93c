//! Ends of runs, with their statuses and their lines on notes.

use capture_core::{Column, CsvFault, VcdFault};
use run_ends::{Cause, Done, Limit, NoTable, NoWheel, Refusal, finish};
use shelf_io::MemSink;
use std::alloc::{AllocError, Global};
use wheel_pattern::{Key, PatternFault, TableFault};
use wheel_types::{Channel, WheelFault};

/// The causes that rows give by their numbers here.
const CAUSES: [Cause; 21] = [
    Cause::Usage,
    Cause::Refused(Refusal::Wheel(NoWheel {
        fault: PatternFault::NotToml,
    })),
    Cause::Refused(Refusal::Wheel(NoWheel {
        fault: PatternFault::MissingKey { key: Key::Cam2High },
    })),
    Cause::Refused(Refusal::Wheel(NoWheel {
        fault: PatternFault::BadValue { key: Key::Ratio },
    })),
    Cause::Refused(Refusal::Wheel(NoWheel {
        fault: PatternFault::Wheel(WheelFault::SlotValue { at: u64::MAX }),
    })),
    Cause::Refused(Refusal::Wheel(NoWheel {
        fault: PatternFault::Wheel(WheelFault::Phasing { cam: Channel::Cam2 }),
    })),
    Cause::Limit(Limit::Places),
    Cause::Refused(Refusal::Table(NoTable {
        fault: TableFault::TwoArrays,
    })),
    Cause::Refused(Refusal::Table(NoTable {
        fault: TableFault::BadText { at: 0 },
    })),
    Cause::Refused(Refusal::Csv(CsvFault::NoColumn {
        column: Column::Time,
    })),
    Cause::Refused(Refusal::Csv(CsvFault::BadLevel {
        row: 4,
        column: Column::Crank,
    })),
    Cause::Refused(Refusal::Csv(CsvFault::TimeTooFine { row: 10 })),
    Cause::Refused(Refusal::Vcd(VcdFault::WideSignal {
        channel: Channel::Cam1,
    })),
    Cause::Refused(Refusal::Vcd(VcdFault::Cut { at: 184 })),
    Cause::ReadFault,
    Cause::WriteFault,
    Cause::Memory,
    Cause::Limit(Limit::File),
    Cause::Limit(Limit::States { limit: 65535 }),
    Cause::Refused(Refusal::Report { at: 1 }),
    Cause::Refused(Refusal::Certificate { at: u64::MAX }),
];

/// The end that a number gives; a dash is the end of a run that is done.
fn end_of(number: &str) -> Option<Result<Done, Cause>> {
    if number == "-" {
        return Some(Ok(Done::Whole));
    }
    let number = number.parse::<usize>().ok()?;
    let cause = CAUSES.get(number)?;
    Some(Err(*cause))
}

/// What is told of an end: itself, its status, and the line that notes gets, whose first write may fail.
pub fn told_of_end(
    alloc: Global,
    number: &str,
    is_failing: bool,
) -> Result<Option<String>, AllocError> {
    let Some(end) = end_of(number) else {
        return Ok(None);
    };
    let mut fails = Vec::new(alloc);
    if is_failing {
        fails.push(0)?;
    }
    let mut notes = MemSink::new(alloc, fails);
    let status = finish(end, &[], &mut notes);
    let line = String::from_utf8_lossy(alloc, notes.bytes())?;
    let slash = if line.is_empty() { "" } else { " / " };
    Ok(Some(format!(in alloc; "{end:?} / {status:?}{slash}{line}")?))
}
