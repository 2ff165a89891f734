//! The elements of a node's lists: regions, ranges and delays, read where they lie.

ghost use Rattle.std.specs.Prelude.{◌≡◌, is_some, map, option_map};
ghost use Rattle.std.specs.List.{list_all};
ghost use Rattle.toml.specs.View.{table_view, view};
ghost use Rattle.topology_text.specs.Seen.{region_seen};
ghost use Rattle.topology_text.specs.Shape.{all_read, delay_of, range_in, range_of, region_in, region_of};

use crate::form::Presence;
use crate::kind::Span;
use crate::value::{ANY_NUMBER, has_keys_among, natural_within, number_at, text_at};
use toml::{Table, Value};

/// A region, whose name lies in the text.
#[derive(Debug, Clone, Copy)]
pub(crate) struct TextRegion<'a> {
    pub base: u64,
    pub size: u64,
    pub to: &'a str,
}

/// The addresses and the name of a region: a table with exactly these three keys.
#[tactic(auto, unfolding(crate::specs::Shape::region_in))]
pub(crate) fn region_in(table: &Table) -> Option<TextRegion<'_>>
    ensures { option_map region_seen result ≡ region_in (table_view table.now) }
{
    let base = number_at(table, "base", Presence::Required, ANY_NUMBER)?;
    let size = number_at(table, "size", Presence::Required, ANY_NUMBER)?;
    let to = text_at(table, "to", Presence::Required)?;
    if has_keys_among(table, &["base", "size", "to"]) {
        Some(TextRegion { base, size, to })
    } else {
        None
    }
}

/// A span of addresses: a table with exactly these two keys.
#[tactic(auto, unfolding(crate::specs::Shape::range_in))]
pub(crate) fn range_in(table: &Table) -> Option<Span>
    ensures { result ≡ range_in (table_view table.now) }
{
    let base = number_at(table, "base", Presence::Required, ANY_NUMBER)?;
    let size = number_at(table, "size", Presence::Required, ANY_NUMBER)?;
    if has_keys_among(table, &["base", "size"]) {
        Some(Span { base, size })
    } else {
        None
    }
}

/// The region that a value is.
pub(crate) fn region_of(value: &Value) -> Option<TextRegion<'_>>
    ensures { option_map region_seen result ≡ region_of (view value.now) }
{
    region_in(value.as_table()?)
}

/// The range that a value is.
pub(crate) fn range_of(value: &Value) -> Option<Span>
    ensures { result ≡ range_of (view value.now) }
{
    range_in(value.as_table()?)
}

/// The delay that a value is: an integer from 0 to 63.
pub(crate) fn delay_of(value: &Value) -> Option<u8>
    ensures { result ≡ delay_of (view value.now) }
{
    let delay = natural_within(value, 0, 63)?;
    Some(delay as u8)
}

/// The values, where each of them is a region.
pub(crate) fn all_regions(values: &[Value]) -> Option<&[Value]>
    ensures { option_map (λ values. map view values.now) result ≡ all_read region_of (map view values.now) }
{
    if are_regions(values) {
        Some(values)
    } else {
        None
    }
}

// Whether each of the values is a region.
fn are_regions(values: &[Value]) -> bool
    ensures { result ≡ list_all (λ value. is_some (region_of (view value))) values.now }
{
    values.iter().all(|value| is_region(value))
}

// Whether a value is a region.
fn is_region(value: &Value) -> bool
    ensures { result ≡ is_some (region_of (view value.now)) }
{
    region_of(value).is_some()
}

/// The values, where each of them is a range.
pub(crate) fn all_ranges(values: &[Value]) -> Option<&[Value]>
    ensures { option_map (λ values. map view values.now) result ≡ all_read range_of (map view values.now) }
{
    if are_ranges(values) {
        Some(values)
    } else {
        None
    }
}

// Whether each of the values is a range.
fn are_ranges(values: &[Value]) -> bool
    ensures { result ≡ list_all (λ value. is_some (range_of (view value))) values.now }
{
    values.iter().all(|value| range_of(value).is_some())
}

/// The values, where each of them is a delay.
pub(crate) fn all_delays(values: &[Value]) -> Option<&[Value]>
    ensures { option_map (λ values. map view values.now) result ≡ all_read delay_of (map view values.now) }
{
    if are_delays(values) {
        Some(values)
    } else {
        None
    }
}

// Whether each of the values is a delay.
fn are_delays(values: &[Value]) -> bool
    ensures { result ≡ list_all (λ value. is_some (delay_of (view value))) values.now }
{
    values.iter().all(|value| delay_of(value).is_some())
}
