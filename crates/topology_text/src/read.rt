//! The nodes of a document, each of the shape of its kind.

ghost use Rattle.std.specs.Prelude.{◌≡◌, ◌<◌, ◌^◌, ◌-◌, IfOk, is_some, length, map, option_map};
ghost use Rattle.std.specs.List.{list_all};
ghost use Rattle.toml.specs.Data.{as_table};
ghost use Rattle.toml.specs.View.{table_view, view};
ghost use Rattle.topology_text.specs.Seen.{read_items, row_seen};
ghost use Rattle.topology_text.specs.Shape.{all_read, node_in, read_tables, row_of, tables_in};

use crate::form::Presence;
use crate::node::Node;
use crate::row::{TextRow, row_in};
use crate::value::{Limits, has_keys_among, list_at, number_at};
use std::alloc::{AllocError, Global};
use toml::{Table, Value};

/// The tables of the array `node`, where the top level is of its shape.
#[tactic(auto, unfolding(crate::specs::Shape::tables_in))]
pub(crate) fn tables_in(top: &Table) -> Option<&[Value]>
    ensures { option_map (λ tables. map view tables.now) result ≡ tables_in (table_view top.now) }
{
    const VERSION: Limits = Limits {
        least: 1,
        most: 1,
        default: 0,
    };
    number_at(top, "version", Presence::Required, VERSION)?;
    let tables = all_tables(list_at(top, "node", Presence::Required, 1, usize::MAX)?)?;
    if has_keys_among(top, &["version", "node"]) {
        Some(tables)
    } else {
        None
    }
}

// The values, where each of them is a table.
fn all_tables(values: &[Value]) -> Option<&[Value]>
    ensures { option_map (λ values. map view values.now) result ≡ all_read as_table (map view values.now) }
{
    if are_tables(values) {
        Some(values)
    } else {
        None
    }
}

// Whether each of the values is a table.
fn are_tables(values: &[Value]) -> bool
    ensures { result ≡ list_all (λ value. is_some (as_table (view value))) values.now }
{
    values.iter().all(|value| value.is_table())
}

/// The nodes that tables are read as, or the number from 1 of the first one that isn't of its shape.
///
/// # Errors
///
/// There was no memory for them.
pub(crate) fn read_nodes(
    alloc: Global,
    tables: &[Value],
) -> Result<Result<Vec<Node>, u32>, AllocError>
    requires { length tables.now < 2 ^ 32 - 1 }
    ensures { IfOk result (λ read. read_items read ≡ read_tables 1 (map view tables.now)) }
{
    let mut nodes = Vec::new(alloc);
    for (place, table) in tables.iter().enumerate() {
        match node_of(alloc, table)? {
            Some(node) => nodes.push(node)?,
            None => return Ok(Err(place as u32 + 1)),
        }
    }
    Ok(Ok(nodes))
}

// The node that a table is read as, where it is of the shape of its kind.
fn node_of(alloc: Global, table: &Value) -> Result<Option<Node>, AllocError>
    ensures { IfOk result (λ node. node ≡ node_in (view table.now)) }
{
    match row_of(table) {
        Some(row) => Ok(Some(Node::new(alloc, &row)?)),
        None => Ok(None),
    }
}

// The row of a table.
fn row_of(table: &Value) -> Option<TextRow<'_>>
    ensures { option_map row_seen result ≡ row_of (view table.now) }
{
    row_in(table.as_table()?)
}
