//! The reader of captures in CSV.
ghost use Rattle.std.specs.Prelude.{◌≡◌, ℕ, IfOk, List as Items, drop, [], ◌∷◌, ◌^◌};
ghost use Rattle.wheel_types.specs.Verdicts.{IsRising, AreWithin};
ghost use Rattle.capture_core.specs.Captures.{capture_of};
ghost use Rattle.csv_capture.specs.Captures.{after_rows, csv_capture, rows_of};
ghost use Rattle.capture_core.specs.declared.capture.Watch.{Watch as AWatch};
ghost use Rattle.csv_capture.specs.RecordsOf.{HasRead};
ghost use Rattle.csv_capture.specs.RowsOf.{Keeps};

use crate::columns::Columns;
use crate::records::Records;
use crate::row::row_stamp;
use crate::rows::Rows;
use capture_core::{Capture, Column, CsvFault, Names, Watch};
use std::alloc::Global;
use wheel_types::Memory;

/// The capture of the rows below the header. There are fewer rows than bytes.
fn read_rows(
    bytes: &[u8],
    records: &mut Records<'_>,
    columns: Columns,
    rows: Rows,
) -> Result<Capture, Memory>
    requires { (header : Items (Items ℕ)) × HasRead bytes.now (header ∷ []) records.old }
    ensures { IfOk result (λ c. (header : Items (Items ℕ)) (watch : AWatch) → HasRead bytes.now (header ∷ []) records.old → Keeps watch [] rows
        → c ≡ capture_of watch (after_rows columns 2 [] (drop 1 (rows_of bytes.now)))) }
{
    let mut rows = rows;
    let mut number: u64 = 2;
    'rows: loop {
        let more = records.advance()?;
        if !more {
            let capture = rows.finish()?;
            return Ok(capture);
        }
        match row_stamp(records.row(), columns, number, rows.last_time()) {
            Ok(stamp) => rows.take(stamp)?,
            Err(fault) => return Ok(rows.refused(fault)),
        }
        number += 1;
    }
}

/// The capture of all rows, the header first.
fn read_all(
    bytes: &[u8],
    records: &mut Records<'_>,
    names: &Names,
    watch: Watch,
    rows: Rows,
) -> Result<Capture, Memory>
    requires { HasRead bytes.now [] records.old }
    ensures { IfOk result (λ c. Keeps watch [] rows → c ≡ csv_capture names.now watch bytes.now) }
{
    let more = records.advance()?;
    if !more {
        let column = Column::Time;
        return Ok(rows.refused(CsvFault::NoColumn { column }));
    }
    match Columns::find(records.row(), names, watch) {
        Ok(columns) => read_rows(bytes, records, columns, rows),
        Err(fault) => Ok(rows.refused(fault)),
    }
}

/// The capture of a file in CSV: the instants of the watched channels in the order of their times, in femtoseconds,
/// up to the first fault, and how it ends.
///
/// A byte order mark at the front is skipped. The first row names the columns, and the others give a time in
/// seconds and a level for each watched channel. The column of times is that of its name, or the first one where
/// none is given; the crank and each watched cam have the column of their name, and other columns are ignored.
/// Spaces and tabs around a field are dropped. A time is a decimal number, which may have an exponent, and is read
/// exactly. Every fault of the file is the capture's end; the error is want of memory.
pub fn read_csv(alloc: Global, bytes: &[u8], names: &Names, watch: Watch) -> Result<Capture, Memory>
    ensures capture { IfOk result (λ c. c ≡ csv_capture names.now watch bytes.now) }
    ensures rising { IfOk result (λ c. IsRising c.instants) }
    ensures within { IfOk result (λ c. AreWithin (10 ^ 24) c.instants) }
{
    let mut records = Records::new(alloc, bytes);
    read_all(bytes, &mut records, names, watch, Rows::new(alloc, watch))
}
