//! The nodes of a document, as values of their own. A clause sees a node as its keys.

ghost use Rattle.std.specs.Prelude.{◌≡◌, IfOk, [], filter_map};
ghost use Rattle.toml.specs.View.{view};
ghost use Rattle.topology_text.specs.Node.{node_of_text, value_delays};
ghost use Rattle.topology_text.specs.Shape.{delay_of, range_of, region_of};

use crate::element::{delay_of, range_of, region_of};
use crate::form::{Form, Presence};
use crate::kind::{Kind, Span};
use crate::row::{Numbers, TextRow};
use std::alloc::{AllocError, Global};
use std::marker::Model;
use toml::Value;

/// A region, and the name of the node that serves it.
#[derive(Debug, Drop)]
pub struct NamedSpan {
    base: u64,
    size: u64,
    to: String,
}

impl Model for NamedSpan {
    ghost use Rattle.topology_text.specs.Document.{NamedRegion};

    ghost Value = { NamedRegion };

    ghost use Rattle.topology_text.specs.Node.{region_kept};

    ghost view = { region_kept };
}

impl NamedSpan {
    /// The lowest address.
    pub fn base(&self) -> u64
        ensures { result ≡ self.now.base }
    {
        self.base
    }

    /// The number of addresses, in bytes.
    pub fn size(&self) -> u64
        ensures { result ≡ self.now.size }
    {
        self.size
    }

    /// The name of the node that serves them.
    pub fn to(&self) -> &str
        ensures { result.now ≡ self.now.to }
    {
        &self.to
    }
}

/// A node of a document.
#[derive(Debug, Drop)]
pub struct Node {
    name: String,
    kind: Kind,
    to: String,
    numbers: Numbers,
    region: Vec<NamedSpan>,
    read_only: Vec<Span>,
    hole: Vec<Span>,
    accept: Vec<u8>,
    give: Vec<u8>,
}

impl Model for Node {
    ghost use Rattle.topology_text.specs.Document.{DocumentNode};

    ghost Value = { DocumentNode };

    ghost use Rattle.topology_text.specs.Node.{node_kept};

    ghost view = { node_kept };
}

impl Node {
    /// The node's name.
    pub fn name(&self) -> &str
        ensures { result.now ≡ self.now.name }
    {
        &self.name
    }

    /// What the node is.
    pub fn kind(&self) -> Kind
        ensures { result ≡ self.now.kind }
    {
        self.kind
    }

    /// The name of the one node below; empty for a kind without the key.
    pub fn to(&self) -> &str
        ensures { result.now ≡ self.now.to }
    {
        &self.to
    }

    /// The regions, each with the node that serves it; empty for a kind without the key.
    pub fn region(&self) -> &[NamedSpan]
        ensures { result.now ≡ self.now.region }
    {
        &self.region
    }

    /// The bytes of the bus; 0 for a kind without the key.
    pub fn bus(&self) -> u8
        ensures { result ≡ self.now.bus }
    {
        self.numbers.bus
    }

    /// The bits of an ID; 0 for a kind without the key.
    pub fn id_width(&self) -> u8
        ensures { result ≡ self.now.id_width }
    {
        self.numbers.id_width
    }

    /// How many beats each queue of a link below has room for; 0 for a kind without the key.
    pub fn depth(&self) -> u8
        ensures { result ≡ self.now.depth }
    {
        self.numbers.depth
    }

    /// The lowest address of a memory; 0 for another kind.
    pub fn base(&self) -> u64
        ensures { result ≡ self.now.base }
    {
        self.numbers.base
    }

    /// The number of bytes of a memory; 0 for another kind.
    pub fn size(&self) -> u64
        ensures { result ≡ self.now.size }
    {
        self.numbers.size
    }

    /// What a memory's bytes are at first; 0 for another kind.
    pub fn fill(&self) -> u8
        ensures { result ≡ self.now.fill }
    {
        self.numbers.fill
    }

    /// The ranges of a memory that may not be written; empty for another kind.
    pub fn read_only(&self) -> &[Span]
        ensures { result.now ≡ self.now.read_only }
    {
        &self.read_only
    }

    /// The ranges of a memory that may not be read; empty for another kind.
    pub fn hole(&self) -> &[Span]
        ensures { result.now ≡ self.now.hole }
    {
        &self.hole
    }

    /// The delays of what the node takes, in rounds; empty for a kind without the key.
    pub fn accept(&self) -> &[u8]
        ensures { result.now ≡ self.now.accept }
    {
        &self.accept
    }

    /// The delays of what the node puts, in rounds; empty for a kind without the key.
    pub fn give(&self) -> &[u8]
        ensures { result.now ≡ self.now.give }
    {
        &self.give
    }

    // The node of a row.
    pub(crate) fn new(alloc: Global, row: &TextRow<'_>) -> Result<Node, AllocError>
        ensures { IfOk result (λ node. node ≡ node_of_text row.now) }
    {
        let form = Form::of(row.kind);
        Ok(Node {
            name: String::from_str(alloc, row.name)?,
            kind: row.kind,
            to: String::from_str(alloc, row.to)?,
            numbers: row.numbers,
            region: copy_regions(alloc, row.lists.region)?,
            read_only: copy_ranges(alloc, row.lists.read_only)?,
            hole: copy_ranges(alloc, row.lists.hole)?,
            accept: copy_delays(alloc, form.accept, row.lists.accept)?,
            give: copy_delays(alloc, form.give, row.lists.give)?,
        })
    }
}

// The regions among some values.
fn copy_regions(alloc: Global, values: &[Value]) -> Result<Vec<NamedSpan>, AllocError>
    ensures { IfOk result (λ regions. regions.items ≡ filter_map (λ value. region_of (view value)) values.now) }
{
    let mut regions = Vec::new(alloc);
    for value in values {
        if let Some(region) = region_of(value) {
            regions.push(NamedSpan {
                base: region.base,
                size: region.size,
                to: String::from_str(alloc, region.to)?,
            })?;
        }
    }
    Ok(regions)
}

// The ranges among some values.
fn copy_ranges(alloc: Global, values: &[Value]) -> Result<Vec<Span>, AllocError>
    ensures { IfOk result (λ ranges. ranges.items ≡ filter_map (λ value. range_of (view value)) values.now) }
{
    values.iter().filter_map(range_of).collect(alloc)
}

// The delays of a node, or where none are given the default of a kind that has them: no delay.
fn copy_delays(alloc: Global, presence: Presence, values: &[Value]) -> Result<Vec<u8>, AllocError>
    ensures { IfOk result (λ delays. delays.items ≡ value_delays presence values.now) }
{
    if values.is_empty() {
        default_delays(alloc, presence)
    } else {
        collect_delays(alloc, values)
    }
}

// The delays among some values.
fn collect_delays(alloc: Global, values: &[Value]) -> Result<Vec<u8>, AllocError>
    ensures { IfOk result (λ delays. delays.items ≡ filter_map (λ value. delay_of (view value)) values.now) }
{
    values.iter().filter_map(delay_of).collect(alloc)
}

// The delays of a node of which none are given.
fn default_delays(alloc: Global, presence: Presence) -> Result<Vec<u8>, AllocError>
    ensures { IfOk result (λ delays. delays.items ≡ value_delays presence []) }
{
    match presence {
        Presence::Never => Ok(Vec::new(alloc)),
        Presence::Optional | Presence::Required => Vec::from_slice(alloc, &[0]),
    }
}
