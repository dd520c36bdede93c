//! The columns of a capture in CSV, found by the names in its header.
ghost use Rattle.std.specs.Prelude.{◌≡◌, string_bytes};
ghost use Rattle.csv.specs.Records.{fields_of};
ghost use Rattle.csv_capture.specs.Header as header_words;

use crate::field::field_text;
use capture_core::{Column, CsvFault, Names, Watch};
use csv::ByteRecord;
use wheel_types::Keep;

/// The places of the used columns in a row, from 0. A cam has one where it is watched.
#[derive(Clone, Copy, Debug, PartialEq, Eq)]
pub struct Columns {
    pub time: usize,
    pub crank: usize,
    pub cam1: Option<usize>,
    pub cam2: Option<usize>,
}

/// The column with this name.
fn column_named(header: &ByteRecord, name: &[u8], column: Column) -> Result<usize, CsvFault>
    ensures { result ≡ header_words.column_named column name.now (fields_of header.now) }
{
    let mut found = None;
    'fields: for at in 0..header.len() {
        if field_text(header, at) == name {
            if found.is_some() {
                return Err(CsvFault::TwoColumns { column });
            }
            found = Some(at);
        }
    }
    match found {
        Some(at) => Ok(at),
        None => Err(CsvFault::NoColumn { column }),
    }
}

/// The column of times: the first one, or that of the name.
fn time_column(header: &ByteRecord, name: &Option<String>) -> Result<usize, CsvFault>
    ensures { result ≡ header_words.time_column name.now (fields_of header.now) }
{
    match name {
        Some(name) => column_named(header, name.as_bytes(), Column::Time),
        None if header.is_empty() => Err(CsvFault::NoColumn {
            column: Column::Time,
        }),
        None => Ok(0),
    }
}

/// The column of a cam, where the cam is watched.
fn cam_column(
    header: &ByteRecord,
    keep: Option<Keep>,
    name: &[u8],
    column: Column,
) -> Result<Option<usize>, CsvFault>
    ensures { result ≡ header_words.cam_column column keep name.now (fields_of header.now) }
{
    match keep {
        Some(_) => match column_named(header, name, column) {
            Ok(at) => Ok(Some(at)),
            Err(fault) => Err(fault),
        },
        None => Ok(None),
    }
}

impl Columns {
    /// The columns of a header, or the first fault of time, crank and cams.
    pub fn find(header: &ByteRecord, names: &Names, watch: Watch) -> Result<Columns, CsvFault>
        ensures { result ≡ header_words.columns_of names.now watch (fields_of header.now) }
    {
        let time = time_column(header, &names.time)?;
        let crank = column_named(header, names.crank.as_bytes(), Column::Crank)?;
        let cam1 = cam_column(header, watch.cam1, names.cam1.as_bytes(), Column::Cam1)?;
        let cam2 = cam_column(header, watch.cam2, names.cam2.as_bytes(), Column::Cam2)?;
        Ok(Columns {
            time,
            crank,
            cam1,
            cam2,
        })
    }
}
