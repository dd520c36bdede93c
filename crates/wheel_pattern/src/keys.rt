//! The keys of a wheel file, and what stands at them.
ghost use Rattle.std.specs.Prelude.{◌≡◌, option_map, string_bytes};
ghost use Rattle.std.specs.List.{list_all};
ghost use Rattle.std.specs.BTreeMap.{keys};
ghost use Rattle.toml.specs.Data.{get_member};
ghost use Rattle.toml.specs.View.{view, table_view};
ghost use Rattle.wheel_pattern.specs.Keys.{text_of, is_named, all_keys, has_only};

use std::fmt;
use toml::{Table, Value};

/// A key of a wheel file, in the order in which their values are tested.
#[derive(Clone, Copy, Debug, PartialEq, Eq)]
pub enum Key {
    /// Degrees of a cycle, 360 or 720.
    Degrees,
    /// The slots' values, which make the full form.
    Slots,
    /// How many teeth a turn has, missing ones with them.
    Teeth,
    /// How many of them, the last ones, are missing.
    Missing,
    /// The first cam's first high slot, and how many slots it is high from there on.
    Cam1High,
    /// The same of the second cam.
    Cam2High,
    /// Which edges of the crank are kept.
    Crank,
    /// Which edges of the first cam are kept.
    Cam1,
    /// Which edges of the second cam are kept.
    Cam2,
    /// How early the first cam's edges may come, in millidegrees.
    Cam1Early,
    /// How late they may come, in millidegrees.
    Cam1Late,
    /// How early the second cam's edges may come, in millidegrees.
    Cam2Early,
    /// How late they may come, in millidegrees.
    Cam2Late,
    /// The crank's least speed, in turns a minute.
    RpmLow,
    /// Its greatest speed, in turns a minute.
    RpmHigh,
    /// The two terms of the greatest ratio of the speeds of two successive gaps, the greater term first.
    Ratio,
}

impl fmt::Display for Key {
    ghost use Rattle.std.specs.Prelude.{Some};
    ghost use Rattle.wheel_pattern.specs.Keys.{text_of};

    ghost output = { λ key. Some (text_of key) };

    fn fmt<W: fmt::Write>(&self, f: &mut fmt::Formatter<W>) -> fmt::Result {
        f.write_str(self.text())
    }
}

impl Key {
    /// The key's text in a wheel file.
    pub fn text(self) -> &'static str
        ensures { result.now ≡ text_of self }
    {
        match self {
            Key::Degrees => "degrees",
            Key::Slots => "slots",
            Key::Teeth => "teeth",
            Key::Missing => "missing",
            Key::Cam1High => "cam1_high",
            Key::Cam2High => "cam2_high",
            Key::Crank => "crank",
            Key::Cam1 => "cam1",
            Key::Cam2 => "cam2",
            Key::Cam1Early => "cam1_early",
            Key::Cam1Late => "cam1_late",
            Key::Cam2Early => "cam2_early",
            Key::Cam2Late => "cam2_late",
            Key::RpmLow => "rpm_low",
            Key::RpmHigh => "rpm_high",
            Key::Ratio => "ratio",
        }
    }
}

/// The value at a key of a table.
pub fn value_at(table: &Table, key: Key) -> Option<&Value>
    ensures { option_map (λ v. view v.now) result ≡ get_member (text_of key) (table_view table.now) }
{
    table.get(key.text())
}

/// Whether a text is a key of a wheel file.
fn is_key(text: &str) -> bool
    ensures { result ≡ is_named all_keys text.now }
{
    matches!(
        text,
        "degrees"
            | "slots"
            | "teeth"
            | "missing"
            | "cam1_high"
            | "cam2_high"
            | "crank"
            | "cam1"
            | "cam2"
            | "cam1_early"
            | "cam1_late"
            | "cam2_early"
            | "cam2_late"
            | "rpm_low"
            | "rpm_high"
            | "ratio"
    )
}

/// Whether each key in the table's list of keys is one of a wheel file.
fn all_keys_known(table: &Table) -> bool
    ensures keys { result ≡ list_all (λ k. is_named all_keys (string_bytes k)) (keys table.now) }
{
    table.keys().all(|key| is_key(key.as_str()))
}

/// Whether each key of the table is one of a wheel file.
pub fn has_known_keys(table: &Table) -> bool
    ensures { result ≡ has_only all_keys (table_view table.now) }
{
    all_keys_known(table)
}
