//! The table of a node, read where it lies.

ghost use Rattle.std.specs.Prelude.{◌≡◌, ◌<◌, option_map};
ghost use Rattle.std.specs.List.{list_all};
ghost use Rattle.toml.specs.View.{table_view};
ghost use Rattle.topology_text.specs.Seen.{lists_seen, row_seen};
ghost use Rattle.topology_text.specs.Shape.{has_keys_among, is_name, is_name_code, is_small_letter, table_lists, node_keys, number_at, numbers_in, row_in};

use crate::element::{all_delays, all_ranges, all_regions};
use crate::form::{Form, Presence, kind_named};
use crate::kind::Kind;
use crate::value::{ANY_NUMBER, Limits, has_keys_among, list_at, number_at, text_at};
use axi_beats::is_bus_width;
use toml::{Table, Value};

// The bytes of a bus. No kind may leave it out, so that the default is never taken.
const BUS: Limits = Limits {
    least: 4,
    most: 128,
    default: 4,
};

// The bits of an ID.
const ID_WIDTH: Limits = Limits {
    least: 0,
    most: 16,
    default: 0,
};

// The entries of a link's queues.
const DEPTH: Limits = Limits {
    least: 1,
    most: 16,
    default: 2,
};

// The byte that a memory is filled with.
const FILL: Limits = Limits {
    least: 0,
    most: 255,
    default: 0,
};

/// The numbers of a node.
#[derive(Debug, Clone, Copy)]
pub(crate) struct Numbers {
    pub bus: u8,
    pub id_width: u8,
    pub depth: u8,
    pub base: u64,
    pub size: u64,
    pub fill: u8,
}

/// The lists of a node, each as its elements, all of which are of their form.
#[derive(Clone, Copy)]
pub(crate) struct TextLists<'a> {
    pub region: &'a [Value],
    pub read_only: &'a [Value],
    pub hole: &'a [Value],
    pub accept: &'a [Value],
    pub give: &'a [Value],
}

/// The table of a node, whose keys are those of its kind.
#[derive(Clone, Copy)]
pub(crate) struct TextRow<'a> {
    pub kind: Kind,
    pub name: &'a str,
    pub to: &'a str,
    pub numbers: Numbers,
    pub lists: TextLists<'a>,
}

/// The row of a table, where its keys are those of its kind.
#[tactic(auto, unfolding(crate::specs::Shape::row_in))]
pub(crate) fn row_in(table: &Table) -> Option<TextRow<'_>>
    ensures { option_map row_seen result ≡ row_in (table_view table.now) }
{
    let kind = kind_named(text_at(table, "kind", Presence::Required)?)?;
    let name = text_at(table, "name", Presence::Required)?;
    if !is_name(name.as_bytes()) {
        return None;
    }
    let form = Form::of(kind);
    let to = text_at(table, "to", form.to)?;
    let numbers = numbers_in(table, &form)?;
    let lists = table_lists(table, &form)?;
    if !has_node_keys(table) {
        return None;
    }
    Some(TextRow {
        kind,
        name,
        to,
        numbers,
        lists,
    })
}

// Whether a table has no other keys than those of nodes.
fn has_node_keys(table: &Table) -> bool
    ensures { result ≡ has_keys_among node_keys (table_view table.now) }
{
    has_keys_among(
        table,
        &[
            "name",
            "kind",
            "to",
            "region",
            "bus",
            "id_width",
            "depth",
            "base",
            "size",
            "fill",
            "read_only",
            "hole",
            "accept",
            "give",
        ],
    )
}

// The numbers of a table of this form.
#[tactic(auto, unfolding(crate::specs::Shape::numbers_in))]
fn numbers_in(table: &Table, form: &Form) -> Option<Numbers>
    ensures { result ≡ numbers_in form.now (table_view table.now) }
{
    let bus = small_at(table, "bus", form.bus, BUS)?;
    if bus != 0 && !is_bus_width(bus) {
        return None;
    }
    Some(Numbers {
        bus,
        id_width: small_at(table, "id_width", form.id_width, ID_WIDTH)?,
        depth: small_at(table, "depth", form.depth, DEPTH)?,
        base: number_at(table, "base", form.base, ANY_NUMBER)?,
        size: number_at(table, "size", form.size, ANY_NUMBER)?,
        fill: small_at(table, "fill", form.fill, FILL)?,
    })
}

// The number at a key whose numbers are below 256.
fn small_at(table: &Table, key: &str, presence: Presence, limits: Limits) -> Option<u8>
    requires most { limits.most < 256 }
    requires default { limits.default < 256 }
    ensures { result ≡ number_at key.now presence limits (table_view table.now) }
{
    let number = number_at(table, key, presence, limits)?;
    Some(number as u8)
}

// The lists of a table of this form.
#[tactic(auto, unfolding(crate::specs::Shape::table_lists))]
fn table_lists<'a>(table: &'a Table, form: &Form) -> Option<TextLists<'a>>
    ensures { option_map lists_seen result ≡ table_lists form.now (table_view table.now) }
{
    const ANY: usize = usize::MAX;
    Some(TextLists {
        region: all_regions(list_at(table, "region", form.region, 1, ANY)?)?,
        read_only: all_ranges(list_at(table, "read_only", form.read_only, 0, ANY)?)?,
        hole: all_ranges(list_at(table, "hole", form.hole, 0, ANY)?)?,
        accept: all_delays(list_at(table, "accept", form.accept, 1, 64)?)?,
        give: all_delays(list_at(table, "give", form.give, 1, 64)?)?,
    })
}

// Whether a text is a lower-case letter and at most 31 lower-case letters, digits or underscores.
fn is_name(name: &[u8]) -> bool
    ensures { result ≡ is_name name.now }
{
    match name.split_first() {
        Some((first, more)) => {
            is_small_letter(*first) && more.len() <= 31 && are_name_codes(more)
        }
        None => false,
    }
}

// Whether all these bytes may stand in a name.
fn are_name_codes(codes: &[u8]) -> bool
    ensures { result ≡ list_all is_name_code codes.now }
{
    codes.iter().all(|code| is_name_code(*code))
}

// Whether a byte is a lower-case letter.
fn is_small_letter(code: u8) -> bool
    ensures { result ≡ is_small_letter code }
{
    (b'a'..=b'z').contains(&code)
}

// Whether a byte may stand in a name.
fn is_name_code(code: u8) -> bool
    ensures { result ≡ is_name_code code }
{
    is_small_letter(code) || (b'0'..=b'9').contains(&code) || code == b'_'
}
