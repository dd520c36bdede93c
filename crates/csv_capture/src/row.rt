//! One row of a capture in CSV: its time and its levels.
ghost use Rattle.std.specs.Prelude.{◌≡◌, false};
ghost use Rattle.csv.specs.Records.{fields_of};
ghost use Rattle.csv_capture.specs.Rows as rows;
ghost use Rattle.csv_capture.specs.Times as times;

use crate::columns::Columns;
use crate::field::{field_text, level_of};
use crate::time::{TimeFault, time_of};
use capture_core::{Column, CsvFault, Given, Stamp};
use csv::ByteRecord;

fn has_field(row: &ByteRecord, at: usize) -> bool
    ensures { result ≡ rows.has_field (fields_of row.now) at }
{
    row.get(at).is_some()
}

/// The row has a field at this place, where the place is used.
fn has_field_if(row: &ByteRecord, at: Option<usize>) -> bool
    ensures { result ≡ rows.has_field_if (fields_of row.now) at }
{
    match at {
        Some(at) => has_field(row, at),
        None => true,
    }
}

/// The row has all the used columns.
fn is_whole(row: &ByteRecord, columns: Columns) -> bool
    ensures { result ≡ rows.is_whole columns (fields_of row.now) }
{
    has_field(row, columns.time)
        && has_field(row, columns.crank)
        && has_field_if(row, columns.cam1)
        && has_field_if(row, columns.cam2)
}

/// The time is less than one before.
fn falls(before: Option<i128>, time: i128) -> bool
    ensures { result ≡ rows.falls before time }
{
    match before {
        Some(before) => time < before,
        None => false,
    }
}

/// The time of the row with this number, which follows one of the time before.
fn row_time(text: &[u8], number: u64, before: Option<i128>) -> Result<i128, CsvFault>
    ensures { result ≡ rows.row_time number before (times.time_of text.now) }
{
    match time_of(text) {
        Ok(time) if falls(before, time) => Err(CsvFault::TimeFalls { row: number }),
        Ok(time) => Ok(time),
        Err(TimeFault::Bad) => Err(CsvFault::BadTime { row: number }),
        Err(TimeFault::TooLarge) => Err(CsvFault::TimeTooLarge { row: number }),
        Err(TimeFault::TooFine) => Err(CsvFault::TimeTooFine { row: number }),
    }
}

/// The level of a channel, where it is watched.
fn row_level(
    row: &ByteRecord,
    at: Option<usize>,
    column: Column,
    number: u64,
) -> Result<Option<bool>, CsvFault>
    ensures { result ≡ rows.row_level number column (fields_of row.now) at }
{
    match at {
        Some(at) => match level_of(field_text(row, at)) {
            Some(level) => Ok(Some(level)),
            None => Err(CsvFault::BadLevel {
                row: number,
                column,
            }),
        },
        None => Ok(None),
    }
}

/// The levels of all watched channels.
fn row_levels(row: &ByteRecord, columns: Columns, number: u64) -> Result<Given, CsvFault>
    ensures { result ≡ rows.row_levels number columns (fields_of row.now) }
{
    let crank = row_level(row, Some(columns.crank), Column::Crank, number)?;
    let cam1 = row_level(row, columns.cam1, Column::Cam1, number)?;
    let cam2 = row_level(row, columns.cam2, Column::Cam2, number)?;
    Ok(Given { crank, cam1, cam2 })
}

/// The time and the levels of the row with this number, or the first rule that it breaks.
pub fn row_stamp(
    row: &ByteRecord,
    columns: Columns,
    number: u64,
    before: Option<i128>,
) -> Result<Stamp, CsvFault>
    ensures { result ≡ rows.row_stamp columns number before (fields_of row.now) }
{
    if !is_whole(row, columns) {
        return Err(CsvFault::ShortRow { row: number });
    }
    let time = row_time(field_text(row, columns.time), number, before)?;
    let given = row_levels(row, columns, number)?;
    Ok(Stamp { time, given })
}
