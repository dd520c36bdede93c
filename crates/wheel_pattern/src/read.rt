//! Reading a wheel file.
ghost use Rattle.std.specs.Prelude.{◌≡◌, ◌≢◌, IfOk, IfErr, Err, is_none, find};
ghost use Rattle.toml.specs.View.{table_view};
ghost use Rattle.wheel_pattern.specs.Keys.{required_keys};
ghost use Rattle.wheel_pattern.specs.Lookups.{IsDocument, IsDocumentOf, values_of, is_short};
ghost use Rattle.wheel_pattern.specs.WheelFile.{with_limits, full_parts, short_parts, parts_at, Gives, MeansWheel, HasFault};

use crate::keys::has_known_keys;
use crate::lookups::{
    high_at, keep_at, missing_at, number_at, number_or, pair_at, slots_at, stands_at, teeth_at,
};
use crate::tooth_pattern::{Pattern, pattern_slots};
use crate::{Key, PatternFault};
use std::alloc::Global;
use toml::Table;
use wheel_types::{List, Wheel, WheelParts};

/// The parts with these degrees and slots, the rest from what stands at the keys.
fn with_limits(table: &Table, degrees: u32, slots: List<u8>) -> Result<WheelParts, PatternFault>
    ensures { result ≡ with_limits (values_of (table_view table.now)) degrees slots }
{
    let crank = keep_at(table, Key::Crank)?;
    let cam1 = keep_at(table, Key::Cam1)?;
    let cam2 = keep_at(table, Key::Cam2)?;
    let cam1_early = number_or(0, table, Key::Cam1Early)?;
    let cam1_late = number_or(0, table, Key::Cam1Late)?;
    let cam2_early = number_or(0, table, Key::Cam2Early)?;
    let cam2_late = number_or(0, table, Key::Cam2Late)?;
    let rpm_low = number_at(table, Key::RpmLow)?;
    let rpm_high = number_at(table, Key::RpmHigh)?;
    let (rn, rd) = pair_at(table, Key::Ratio)?;
    Ok(WheelParts {
        degrees,
        slots,
        crank,
        cam1,
        cam2,
        cam1_early,
        cam1_late,
        cam2_early,
        cam2_late,
        rpm_low,
        rpm_high,
        rn,
        rd,
    })
}

/// The parts of a file in the full form.
fn full_parts(alloc: Global, table: &Table) -> Result<WheelParts, PatternFault>
    ensures { result ≢ Err PatternFault.Memory → result ≡ full_parts (values_of (table_view table.now)) }
{
    let degrees = number_at(table, Key::Degrees)?;
    let slots = slots_at(alloc, table)?;
    with_limits(table, degrees, slots)
}

/// The parts of a file in the short form.
fn short_parts(alloc: Global, table: &Table) -> Result<WheelParts, PatternFault>
    ensures { result ≢ Err PatternFault.Memory → result ≡ short_parts (values_of (table_view table.now)) }
{
    let degrees = number_or(360, table, Key::Degrees)?;
    let teeth = teeth_at(table)?;
    let missing = missing_at(table, teeth)?;
    let high1 = high_at(table, Key::Cam1High, degrees, teeth)?;
    let high2 = high_at(table, Key::Cam2High, degrees, teeth)?;
    let pattern = Pattern {
        degrees,
        teeth,
        missing,
        high1,
        high2,
    };
    match pattern_slots(alloc, pattern) {
        Ok(slots) => with_limits(table, degrees, List::from_vec(slots)),
        Err(_) => Err(PatternFault::Memory),
    }
}

/// Whether a key of a tooth pattern stands in the file.
fn is_short(table: &Table) -> bool
    ensures { result ≡ is_short (values_of (table_view table.now)) }
{
    stands_at(table, Key::Teeth)
        || stands_at(table, Key::Missing)
        || stands_at(table, Key::Cam1High)
        || stands_at(table, Key::Cam2High)
}

/// The keys that a file must have, in the short form or in the full one.
fn required_keys(short: bool) -> [Key; 5]
    ensures { result ≡ required_keys short }
{
    if short {
        [
            Key::Teeth,
            Key::Missing,
            Key::RpmLow,
            Key::RpmHigh,
            Key::Ratio,
        ]
    } else {
        [
            Key::Degrees,
            Key::Slots,
            Key::RpmLow,
            Key::RpmHigh,
            Key::Ratio,
        ]
    }
}

/// Whether nothing stands at the key.
fn is_missing(table: &Table, key: Key) -> bool
    ensures { result ≡ is_none (values_of (table_view table.now) key) }
{
    !stands_at(table, key)
}

/// The first key that must stand in the file and does not.
fn first_missing(table: &Table, short: bool) -> Option<Key>
    ensures { result ≡ find (λ key. is_none (values_of (table_view table.now) key)) (required_keys short) }
{
    required_keys(short)
        .iter()
        .copied()
        .find(|key| is_missing(table, *key))
}

/// The parts of a file whose keys are known.
fn parts_at(alloc: Global, table: &Table) -> Result<WheelParts, PatternFault>
    ensures { result ≢ Err PatternFault.Memory → result ≡ parts_at (values_of (table_view table.now)) }
{
    let short = is_short(table);
    if short && stands_at(table, Key::Slots) {
        return Err(PatternFault::BothForms);
    }
    if let Some(key) = first_missing(table, short) {
        return Err(PatternFault::MissingKey { key });
    }
    if short {
        short_parts(alloc, table)
    } else {
        full_parts(alloc, table)
    }
}

/// The table of a TOML document.
fn read_document(alloc: Global, bytes: &[u8]) -> Result<Table, PatternFault>
    ensures ok { IfOk result (λ table. IsDocumentOf bytes.now (table_view table)) }
    ensures fault { IfErr result (λ f. f ≢ PatternFault.Memory → (f ≡ PatternFault.NotToml) × ¬ IsDocument bytes.now) }
{
    match toml::table_from_slice(alloc, bytes) {
        Ok(table) => Ok(table),
        Err(fault) => {
            if fault.is_memory() {
                Err(PatternFault::Memory)
            } else {
                Err(PatternFault::NotToml)
            }
        }
    }
}

/// The parts of a wheel file, whether or not they are those of a wheel.
fn read_parts(alloc: Global, bytes: &[u8]) -> Result<WheelParts, PatternFault>
    ensures { result ≢ Err PatternFault.Memory → Gives bytes.now result }
{
    let table = read_document(alloc, bytes)?;
    if !has_known_keys(&table) {
        return Err(PatternFault::UnknownKey);
    }
    parts_at(alloc, &table)
}

/// The wheel of a wheel file, a TOML document whose keys all stand at the top.
///
/// `degrees`, whole numbers for `rpm_low` and `rpm_high`, and two for `ratio` give the wheel's limits; `crank`, `cam1`
/// and `cam2` are `"rising"`, `"falling"` or `"both"`, and rising where they are left out; `cam1_early`, `cam1_late`,
/// `cam2_early` and `cam2_late` are whole numbers of millidegrees, and 0 where they are left out. A whole number is
/// from 0 to `2^32 - 1`. In the full form `slots` lists the slots' values, 0 to 255. In the short form, where one of
/// its keys stands, `teeth` (1 to 2,048) and `missing` (0 to `teeth - 1`) give the crank's levels: 1, 0 for each tooth
/// and 0, 0 for each of the last, missing ones; `degrees` is 360 where it is left out, and at 720 the pattern stands
/// twice. There `cam1_high = [first, count]` sets the first cam in `count` slots from `first` on, counted round the
/// end, and `cam2_high` the second; of N slots `first` is from 0 to N - 1, `count` from 1 to N - 1.
///
/// # Errors
/// The first of these that is so:
/// - `NotToml`: the bytes are no document, for one because a key stands twice.
/// - `UnknownKey`: a key at the top is none of these.
/// - `BothForms`: `slots` stands in a file of the short form.
/// - `MissingKey`: the first of `degrees`, `slots`, `teeth`, `missing`, `rpm_low`, `rpm_high`, `ratio` that must be
///   there and is not. The full form must have `degrees` and `slots`, the short one `teeth` and `missing`, both the
///   other three.
/// - `BadValue`: the first key in the order of `Key` whose value is not of its kind or range. A nested key, as in
///   `cam1.x = 1` or `[crank]`, is a bad value of the key at the top.
/// - `Wheel`: the first rule of a wheel that the parts break.
///
/// `Memory`, at any of these steps, where memory ran out.
pub fn read_wheel(alloc: Global, bytes: &[u8]) -> Result<Wheel, PatternFault>
    ensures wheel { IfOk result (λ w. MeansWheel bytes.now w.parts) }
    ensures fault { IfErr result (λ f. f ≢ PatternFault.Memory → HasFault bytes.now f) }
{
    let parts = read_parts(alloc, bytes)?;
    Wheel::build(parts).map_err(PatternFault::Wheel)
}
