//! Printing of wheel files.
ghost use Rattle.std.specs.Prelude.{◌≡◌, pos, [], ◌∷◌, IfOk, OnOk};
ghost use Rattle.toml.specs.Data.{integer, string, array};
ghost use Rattle.toml.specs.View.{view, table_view};
ghost use Rattle.wheel_pattern.specs.Keys.{text_of};
ghost use Rattle.wheel_pattern.specs.Lookups.{IsDocumentOf};
ghost use Rattle.wheel_pattern.specs.Printed.{insert_member, numbers, keep_text, members_of_parts};
ghost use Rattle.wheel_pattern.specs.WheelFile.{MeansWheel};

use crate::Key;
use std::alloc::{AllocError, Global};
use toml::{Table, Value};
use wheel_types::{Keep, Memory, Wheel, WheelParts};

/// The text that names a polarity.
fn polarity_text(keep: Keep) -> &'static str
    ensures { result.now ≡ keep_text keep }
{
    match keep {
        Keep::Rising => "rising",
        Keep::Falling => "falling",
        Keep::Both => "both",
    }
}

/// Puts a value at a key.
fn put(alloc: Global, table: &mut Table, key: Key, value: Value) -> Result<(), AllocError>
    ensures { OnOk result (table_view table.new ≡ insert_member (text_of key) (view value) (table_view table.old)) }
{
    table.insert(String::from_str(alloc, key.text())?, value)?;
    Ok(())
}

/// Puts a number at a key.
fn put_number(alloc: Global, table: &mut Table, key: Key, number: u32) -> Result<(), AllocError>
    ensures { OnOk result (table_view table.new ≡ insert_member (text_of key) (integer (pos number)) (table_view table.old)) }
{
    put(alloc, table, key, Value::from(number))
}

/// Puts a polarity's text at a key.
fn put_keep(alloc: Global, table: &mut Table, key: Key, keep: Keep) -> Result<(), AllocError>
    ensures { OnOk result (table_view table.new ≡ insert_member (text_of key) (string (keep_text keep)) (table_view table.old)) }
{
    let text = Value::string(alloc, polarity_text(keep))?;
    put(alloc, table, key, text)
}

/// The array of these numbers.
fn number_array(alloc: Global, items: &[u8]) -> Result<Value, AllocError>
    ensures { IfOk result (λ v. view v ≡ array (numbers items.now)) }
{
    let mut values = Vec::with_capacity(alloc, items.len())?;
    for item in items {
        values.push(Value::from(*item))?;
    }
    Ok(Value::from(values))
}

/// The array of two numbers.
fn pair_array(alloc: Global, first: u32, second: u32) -> Result<Value, AllocError>
    ensures { IfOk result (λ v. view v ≡ array (numbers (first ∷ second ∷ []))) }
{
    let values = Vec::from_array(alloc, [Value::from(first), Value::from(second)])?;
    Ok(Value::from(values))
}

/// The document of these parts. It is filled in its order, so that each key is put behind the others.
fn table_of(alloc: Global, parts: &WheelParts) -> Result<Table, AllocError>
    ensures { IfOk result (λ t. table_view t ≡ members_of_parts parts.now) }
{
    let mut table = Table::new(alloc);
    put_keep(alloc, &mut table, Key::Cam1, parts.cam1)?;
    put_number(alloc, &mut table, Key::Cam1Early, parts.cam1_early)?;
    put_number(alloc, &mut table, Key::Cam1Late, parts.cam1_late)?;
    put_keep(alloc, &mut table, Key::Cam2, parts.cam2)?;
    put_number(alloc, &mut table, Key::Cam2Early, parts.cam2_early)?;
    put_number(alloc, &mut table, Key::Cam2Late, parts.cam2_late)?;
    put_keep(alloc, &mut table, Key::Crank, parts.crank)?;
    put_number(alloc, &mut table, Key::Degrees, parts.degrees)?;
    let ratio = pair_array(alloc, parts.rn, parts.rd)?;
    put(alloc, &mut table, Key::Ratio, ratio)?;
    put_number(alloc, &mut table, Key::RpmHigh, parts.rpm_high)?;
    put_number(alloc, &mut table, Key::RpmLow, parts.rpm_low)?;
    let slots = number_array(alloc, parts.slots.as_slice())?;
    put(alloc, &mut table, Key::Slots, slots)?;
    Ok(table)
}

/// The bytes of a wheel file that is read back as this wheel. It is in the full form, as `toml` prints a table.
///
/// # Errors
/// `Memory` where memory ran out.
pub fn write_wheel(alloc: Global, wheel: &Wheel) -> Result<Vec<u8>, Memory>
    ensures document { IfOk result (λ text. IsDocumentOf text.items (members_of_parts wheel.now.parts)) }
    ensures wheel { IfOk result (λ text. MeansWheel text.items wheel.now.parts) }
{
    let table = table_of(alloc, wheel.parts())?;
    // No value is a date, so `toml` refuses nothing but for want of memory.
    let Ok(text) = toml::table_to_string(alloc, &table) else {
        return Err(Memory);
    };
    let bytes = Vec::from_slice(alloc, text.as_str().as_bytes())?;
    Ok(bytes)
}
