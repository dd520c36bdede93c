//! Slot tables in C sources.
ghost use Rattle.std.specs.Prelude.{◌≡◌, ◌≢◌, nat_lt, position, IfOk, IfErr};
ghost use Rattle.c_tables.specs.Tables.{table_in};

use crate::TableFault;
use crate::array::body_place;
use crate::body::entries;
use std::alloc::Global;

/// The place of the first value that is past 7.
fn first_past(values: &[u8]) -> Option<usize>
    ensures { result ≡ position (λ value. nat_lt 7 value) values.now }
{
    values.iter().position(|value| 7 < *value)
}

/// The slots in the array of this name in a C source.
///
/// # Errors
/// Why there are none, in the order of `TableFault`, or want of memory.
pub fn read_table(alloc: Global, bytes: &[u8], name: &str) -> Result<Vec<u8>, TableFault>
    ensures table { IfOk result (λ slots. table_in name.now bytes.now ≡ Ok slots.items) }
    ensures fault { IfErr result (λ f. f ≢ TableFault.Memory → table_in name.now bytes.now ≡ Err f) }
{
    let body = body_place(bytes, name.as_bytes())?;
    let slots = entries(alloc, bytes, body)?;
    match first_past(slots.as_slice()) {
        Some(at) => Err(TableFault::SlotValue { at: at as u64 }),
        None => Ok(slots),
    }
}
