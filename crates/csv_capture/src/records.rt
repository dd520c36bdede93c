//! The rows of a file in CSV, read one after the other into one record.
ghost use Rattle.std.specs.Prelude.{◌≡◌, ℕ, List as Items, IfErr, IfOk};
ghost use Rattle.csv.specs.Records.{fields_of};
ghost use Rattle.csv_capture.specs.RecordsOf.{GoesOn, OnlyStops, Stands, StartsAt};

use csv::{ByteRecord, Error, Reader, ReaderBuilder};
use std::alloc::Global;
use wheel_types::Memory;

/// The rows of bytes that are read, and the row that was read last.
#[derive(Drop)]
pub struct Records<'a> {
    reader: Reader<&'a [u8]>,
    row: ByteRecord,
}

/// A reader of rows of any length.
fn row_reader(alloc: Global, bytes: &[u8]) -> Reader<&[u8]>
    ensures { StartsAt bytes.now result }
{
    ReaderBuilder::new()
        .has_headers(false)
        .flexible(true)
        .from_reader(alloc, bytes)
}

/// Reads the next row, if there is one. Its errors are want of memory and the source's own, and bytes in memory have none.
fn read_row(reader: &mut Reader<&[u8]>, row: &mut ByteRecord) -> Result<bool, Error>
    ensures reads { IfOk result (λ found. (bytes : Items ℕ) (rows : Items (Items (Items ℕ))) → Stands bytes rows reader.old → GoesOn bytes rows (fields_of row.new) reader.new found) }
    ensures only { IfErr result (λ e. OnlyStops reader.old e) }
{
    reader.read_byte_record(row)
}

impl<'a> Records<'a> {
    ghost use Rattle.std.specs.Prelude.{◌≡◌, ℕ, [], List, IfOk};
    ghost use Rattle.csv.specs.Records.{fields_of};
    ghost use Rattle.csv_capture.specs.RecordsOf.{HasRead, ReadsOn, row_of};

    /// Before the first row.
    pub fn new(alloc: Global, bytes: &'a [u8]) -> Records<'a>
        ensures { HasRead bytes.now [] result }
    {
        Records {
            reader: row_reader(alloc, bytes),
            row: ByteRecord::new(alloc),
        }
    }

    /// Reads the next row, if there is one.
    pub fn advance(&mut self) -> Result<bool, Memory>
        ensures { IfOk result (λ found. (bytes : List ℕ) (rows : List (List (List ℕ))) → HasRead bytes rows self.old → ReadsOn bytes rows self.new found) }
    {
        match read_row(&mut self.reader, &mut self.row) {
            Ok(found) => Ok(found),
            Err(_) => Err(Memory),
        }
    }

    /// The row that was read last.
    pub fn row(&self) -> &ByteRecord
        ensures { fields_of result.now ≡ row_of self.now }
    {
        &self.row
    }
}
