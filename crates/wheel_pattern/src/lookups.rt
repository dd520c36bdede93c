//! What stands at a key of a wheel file, or `BadValue` with the key where it is not of the key's kind and range.
ghost use Rattle.std.specs.Prelude.{◌≡◌, ◌≢◌, ◌<◌, ◌≤◌, Err, IfOk, is_some, option_and_then};
ghost use Rattle.toml.specs.Data.{as_integer};
ghost use Rattle.toml.specs.View.{view, table_view};
ghost use Rattle.wheel_pattern.specs.Lookups.{values_of, given, optional};
ghost use Rattle.wheel_pattern.specs.ToothPattern.{slots_of_teeth, slots_high};
ghost use Rattle.wheel_pattern.specs.Values.{whole, whole_from, whole_below, count_below, slot_values, pair_of, keep_in};

use crate::keys::value_at;
use crate::tooth_pattern::slots_of_teeth;
use crate::{Key, PatternFault, numbers};
use std::alloc::Global;
use toml::{Table, Value};
use wheel_types::{Keep, List};

/// Whether a value stands at the key.
pub fn stands_at(table: &Table, key: Key) -> bool
    ensures { result ≡ is_some (values_of (table_view table.now) key) }
{
    value_at(table, key).is_some()
}

/// The whole number at the key.
pub fn number_at(table: &Table, key: Key) -> Result<u32, PatternFault>
    ensures { result ≡ given (values_of (table_view table.now)) key whole }
{
    match value_at(table, key) {
        Some(value) => numbers::whole_number(value).ok_or(PatternFault::BadValue { key }),
        None => Err(PatternFault::BadValue { key }),
    }
}

/// The whole number at the key, or the usual one where nothing stands there.
pub fn number_or(usual: u32, table: &Table, key: Key) -> Result<u32, PatternFault>
    ensures { result ≡ optional usual (values_of (table_view table.now)) key whole }
{
    match value_at(table, key) {
        Some(value) => numbers::whole_number(value).ok_or(PatternFault::BadValue { key }),
        None => Ok(usual),
    }
}

/// The two whole numbers at the key.
pub fn pair_at(table: &Table, key: Key) -> Result<(u32, u32), PatternFault>
    ensures { result ≡ given (values_of (table_view table.now)) key (pair_of whole whole) }
{
    match value_at(table, key) {
        Some(value) => numbers::pair(value).ok_or(PatternFault::BadValue { key }),
        None => Err(PatternFault::BadValue { key }),
    }
}

/// A whole number from `low`, below `bound`.
fn number_within(low: u32, bound: u32, value: &Value) -> Option<u32>
    ensures { result ≡ option_and_then (whole_from low bound) (as_integer (view value.now)) }
{
    let number = numbers::whole_number(value)?;
    if low <= number && number < bound {
        Some(number)
    } else {
        None
    }
}

/// The number of teeth, from 1 to 2,048.
pub fn teeth_at(table: &Table) -> Result<u32, PatternFault>
    ensures value { result ≡ given (values_of (table_view table.now)) Key.Teeth (count_below 2049) }
    ensures range { IfOk result (λ teeth. (1 ≤ teeth) × (teeth ≤ 2048)) }
{
    let key = Key::Teeth;
    match value_at(table, key) {
        Some(value) => number_within(1, 2049, value).ok_or(PatternFault::BadValue { key }),
        None => Err(PatternFault::BadValue { key }),
    }
}

/// The number of missing teeth, fewer than there are.
pub fn missing_at(table: &Table, teeth: u32) -> Result<u32, PatternFault>
    ensures value { result ≡ given (values_of (table_view table.now)) Key.Missing (whole_below teeth) }
    ensures range { IfOk result (λ missing. missing < teeth) }
{
    let key = Key::Missing;
    match value_at(table, key) {
        Some(value) => number_within(0, teeth, value).ok_or(PatternFault::BadValue { key }),
        None => Err(PatternFault::BadValue { key }),
    }
}

/// The kept polarity that a value names.
fn keep(value: &Value) -> Option<Keep>
    ensures { result ≡ keep_in (view value.now) }
{
    match value.as_str()? {
        "rising" => Some(Keep::Rising),
        "falling" => Some(Keep::Falling),
        "both" => Some(Keep::Both),
        _ => None,
    }
}

/// The kept polarity at the key, or rising where nothing stands there.
pub fn keep_at(table: &Table, key: Key) -> Result<Keep, PatternFault>
    ensures { result ≡ optional Keep.Rising (values_of (table_view table.now)) key keep_in }
{
    match value_at(table, key) {
        Some(value) => keep(value).ok_or(PatternFault::BadValue { key }),
        None => Ok(Keep::Rising),
    }
}

/// The first of so many slots in which a cam is high, and in how many it is from there on.
fn high(value: &Value, slots: u32) -> Option<(u32, u32)>
    ensures { result ≡ pair_of (whole_below slots) (count_below slots) (view value.now) }
{
    let items = value.as_array()?;
    match items.as_slice() {
        [first, count] => {
            let first = number_within(0, slots, first)?;
            let count = number_within(1, slots, count)?;
            Some((first, count))
        }
        _ => None,
    }
}

/// Where the cam at the key is high in the slots of so many teeth, or nowhere where nothing stands there.
pub fn high_at(
    table: &Table,
    key: Key,
    degrees: u32,
    teeth: u32,
) -> Result<(u32, u32), PatternFault>
    requires { teeth ≤ 2048 }
    ensures value { result ≡ optional (0, 0) (values_of (table_view table.now)) key (slots_high degrees teeth) }
    ensures range { IfOk result (λ high. high.0 ≤ slots_of_teeth degrees teeth) }
{
    let slots = slots_of_teeth(degrees, teeth);
    match value_at(table, key) {
        Some(value) => high(value, slots).ok_or(PatternFault::BadValue { key }),
        None => Ok((0, 0)),
    }
}

/// The slots that the file lists.
pub fn slots_at(alloc: Global, table: &Table) -> Result<List<u8>, PatternFault>
    ensures { result ≢ Err PatternFault.Memory → result ≡ given (values_of (table_view table.now)) Key.Slots slot_values }
{
    let key = Key::Slots;
    let Some(value) = value_at(table, key) else {
        return Err(PatternFault::BadValue { key });
    };
    match numbers::bytes(alloc, value) {
        Ok(Some(slots)) => Ok(List::from_vec(slots)),
        Ok(None) => Err(PatternFault::BadValue { key }),
        Err(_) => Err(PatternFault::Memory),
    }
}
