//! Dumps to which more is fed after their end.
ghost use Rattle.std.specs.Prelude.{◌≡◌};
ghost use Rattle.vcd_reader.specs.Readers.{bytes_read};

use crate::pieces::{instants_of, reader_of};
use crate::watched::Watched;
use std::alloc::{AllocError, Global};
use vcd_reader::VcdReader;

/// The answers to a dump and to its end, each with the instants that wait after it, and whether more of both is answered the same.
fn answers(alloc: Global, reader: &mut VcdReader, dump: &[u8]) -> Result<String, AllocError>
    requires { bytes_read reader.old ≡ 0 }
{
    let fed = reader.feed(dump);
    let before = instants_of(alloc, reader)?;
    let end = reader.finish();
    let fed_again = reader.feed(b"#9 x! ");
    let end_again = reader.finish();
    let same = fed_again == end && end_again == end;
    let after = instants_of(alloc, reader)?;
    format!(in alloc; "{fed:?}; {before}{end:?}; {after}{same}")
}

/// What is told of a dump, of its end and of more.
pub fn told_again(alloc: Global, watched: &Watched, dump: &[u8]) -> Result<String, AllocError> {
    let mut reader = reader_of(alloc, watched)?;
    answers(alloc, &mut reader, dump)
}
