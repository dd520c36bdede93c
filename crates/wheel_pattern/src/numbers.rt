//! Whole numbers in a value of a wheel file: one, a list of slots, or a pair.
ghost use Rattle.std.specs.Prelude.{◌≡◌, IfOk};
ghost use Rattle.toml.specs.View.{view};
ghost use Rattle.wheel_pattern.specs.Values.{whole, whole_below, slot_values, pair_of, option_items};

use std::alloc::{AllocError, Global};
use toml::Value;

/// A whole number from 0 to `2^32 - 1`.
pub fn whole_number(value: &Value) -> Option<u32>
    ensures { result ≡ whole (view value.now) }
{
    match value.as_integer() {
        Some(number) => u32::try_from(number).ok(),
        None => None,
    }
}

/// A whole number from 0 to 255.
fn byte(value: &Value) -> Option<u8>
    ensures { result ≡ whole_below 256 (view value.now) }
{
    match value.as_integer() {
        Some(number) => u8::try_from(number).ok(),
        None => None,
    }
}

/// The numbers of an array, if the value is one of whole numbers from 0 to 255.
pub fn bytes(alloc: Global, value: &Value) -> Result<Option<Vec<u8>>, AllocError>
    ensures { IfOk result (λ found. option_items found ≡ slot_values (view value.now)) }
{
    let Some(items) = value.as_array() else {
        return Ok(None);
    };
    let mut found = Vec::with_capacity(alloc, items.len())?;
    for item in items {
        match byte(item) {
            Some(number) => found.push(number)?,
            None => return Ok(None),
        }
    }
    Ok(Some(found))
}

/// The two numbers of an array, if the value is one of two whole numbers.
pub fn pair(value: &Value) -> Option<(u32, u32)>
    ensures { result ≡ pair_of whole whole (view value.now) }
{
    let items = value.as_array()?;
    match items.as_slice() {
        [first, second] => Some((whole_number(first)?, whole_number(second)?)),
        _ => None,
    }
}
