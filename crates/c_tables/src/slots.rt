//! The line of a wheel file that lists a table's slots.
ghost use Rattle.std.specs.Prelude.{◌≡◌, ◌++◌, IfOk, OnOk, string_bytes};
ghost use Rattle.c_tables.specs.Slots.{listed_after, slots_text};

use std::alloc::{AllocError, Global};
use std::fmt::Write;

/// Puts numbers at the end of a line, each after a comma and a blank.
fn push_listed(line: &mut String, numbers: &[u8]) -> Result<(), AllocError>
    ensures { OnOk result (string_bytes line.new ≡ string_bytes line.old ++ listed_after numbers.now) }
{
    for number in numbers {
        if write!(line, ", {number}").is_err() {
            return Err(AllocError);
        }
    }
    Ok(())
}

/// The line of a wheel file that lists the slots, as `slots = [1, 0, 0]` and a line feed.
///
/// # Errors
/// Want of memory.
pub fn slots_line(alloc: Global, slots: &[u8]) -> Result<Vec<u8>, AllocError>
    ensures { IfOk result (λ line. line.items ≡ slots_text slots.now) }
{
    let mut line = String::from_str(alloc, "slots = [")?;
    if let [first, rest @ ..] = slots {
        if write!(line, "{first}").is_err() {
            return Err(AllocError);
        }
        push_listed(&mut line, rest)?;
    }
    line.push_str("]\n")?;
    Ok(line.into_bytes())
}
