//! The values of a table's keys, read where they lie, so that reading takes no memory.

ghost use Rattle.std.specs.Prelude.{◌≡◌, ◌≤◌, IfSome, Some, max, None, map, option_copied, option_map, string_bytes};
ghost use Rattle.std.specs.List.{list_all, list_any};
ghost use Rattle.std.specs.Map.{keys_of};
ghost use Rattle.std.specs.Str.{bytes_eq};
ghost use Rattle.toml.specs.Data.{as_array, get_member};
ghost use Rattle.toml.specs.View.{table_view, view};
ghost use Rattle.topology_text.specs.Shape.{array_of, default_of, elements, has_keys_among, list_at, natural, natural_within, number_at, permitted, text_at};

use crate::form::Presence;
use toml::{Table, Value};

/// The numbers that may stand at a key, and its default.
#[derive(Debug, Clone, Copy)]
pub(crate) struct Limits {
    pub least: u64,
    pub most: u64,
    /// What a kind that has the key takes where it is left out.
    pub default: u64,
}

/// The limits of a key whose number may be any that a text can have.
pub(crate) const ANY_NUMBER: Limits = Limits {
    least: 0,
    most: u64::MAX,
    default: 0,
};

// An integer that isn't below 0.
fn natural(value: &Value) -> Option<u64>
    ensures { result ≡ natural (view value.now) }
{
    let integer = value.as_integer()?;
    if integer < 0 {
        return None;
    }
    Some(integer as u64)
}

/// Such an integer within limits.
pub(crate) fn natural_within(value: &Value, least: u64, most: u64) -> Option<u64>
    ensures value { result ≡ natural_within least most (view value.now) }
    ensures most { IfSome result (λ number. number ≤ most) }
{
    let number = natural(value)?;
    if least <= number && number <= most {
        Some(number)
    } else {
        None
    }
}

// The value at a key.
fn value_at<'a>(table: &'a Table, key: &str) -> Option<&'a Value>
    ensures { option_map (λ value. view value.now) result ≡ get_member key.now (table_view table.now) }
{
    table.get(key)
}

// What stands at a key, where it may stand so: `Some(None)` is a key that is rightly left out.
fn permitted<'a>(table: &'a Table, key: &str, presence: Presence) -> Option<Option<&'a Value>>
    ensures { option_map (option_map (λ value. view value.now)) result ≡ permitted presence (get_member key.now (table_view table.now)) }
{
    match value_at(table, key) {
        Some(value) => match presence {
            Presence::Never => None,
            Presence::Optional | Presence::Required => Some(Some(value)),
        },
        None => match presence {
            Presence::Required => None,
            Presence::Never | Presence::Optional => Some(None),
        },
    }
}

// The number where a key is rightly left out.
fn default_of(presence: Presence, limits: Limits) -> u64
    ensures value { result ≡ default_of presence limits }
    ensures most { result ≤ limits.default }
{
    match presence {
        Presence::Never => 0,
        Presence::Optional | Presence::Required => limits.default,
    }
}

/// The number at a key, or its default.
#[tactic(auto, unfolding(crate::specs::Shape::number_at))]
pub(crate) fn number_at(table: &Table, key: &str, presence: Presence, limits: Limits) -> Option<u64>
    ensures value { result ≡ number_at key.now presence limits (table_view table.now) }
    ensures most { IfSome result (λ number. number ≤ max limits.most limits.default) }
{
    match permitted(table, key, presence)? {
        Some(value) => natural_within(value, limits.least, limits.most),
        None => Some(default_of(presence, limits)),
    }
}

/// The text at a key, which is empty where the key is rightly left out.
#[tactic(auto, unfolding(crate::specs::Shape::text_at))]
pub(crate) fn text_at<'a>(table: &'a Table, key: &str, presence: Presence) -> Option<&'a str>
    ensures { option_copied result ≡ text_at key.now presence (table_view table.now) }
{
    match permitted(table, key, presence)? {
        Some(value) => value.as_str(),
        None => Some(""),
    }
}

/// The elements of the array at a key, which are so many at least and at most; none where the key is
/// rightly left out.
#[tactic(auto, unfolding(crate::specs::Shape::list_at))]
pub(crate) fn list_at<'a>(
    table: &'a Table,
    key: &str,
    presence: Presence,
    least: usize,
    most: usize,
) -> Option<&'a [Value]>
    ensures { option_map (λ values. map view values.now) result ≡ list_at key.now presence least most (table_view table.now) }
{
    match permitted(table, key, presence)? {
        Some(value) => array_of(value, least, most),
        None => Some(&[]),
    }
}

// The elements of an array of so many at least and at most.
fn array_of(value: &Value, least: usize, most: usize) -> Option<&[Value]>
    ensures { option_map (λ values. map view values.now) result ≡ array_of least most (view value.now) }
{
    let values = elements(value)?;
    if least <= values.len() && values.len() <= most {
        Some(values)
    } else {
        None
    }
}

// The elements of an array.
fn elements(value: &Value) -> Option<&[Value]>
    ensures { option_map (λ values. map view values.now) result ≡ option_map elements (as_array (view value.now)) }
{
    let array = value.as_array()?;
    Some(array.as_slice())
}

/// Whether a table has no other keys than these.
pub(crate) fn has_keys_among(table: &Table, names: &[&str]) -> bool
    ensures { result ≡ has_keys_among (map (λ name. name.now) names.now) (table_view table.now) }
{
    keys_are_among(table, names)
}

// Whether each key of a table is one of these.
fn keys_are_among(table: &Table, names: &[&str]) -> bool
    ensures { result ≡ list_all (λ key. list_any (λ name. bytes_eq name.now (string_bytes key)) names.now) (keys_of table.now.entries) }
{
    table.keys().all(|key| is_among(key.as_str(), names))
}

// Whether a key is one of these.
fn is_among(key: &str, names: &[&str]) -> bool
    ensures { result ≡ list_any (λ name. bytes_eq name.now key.now) names.now }
{
    names.iter().any(|name| *name == key)
}
