//! A plan node, as a plan keeps it. A clause sees it as the record of its fields.

ghost use Rattle.std.specs.Prelude.{◌≡◌, IfOk, string_bytes};

use crate::part::Part;
use std::marker::Model;
use topology::LinkKind;

/// A plan node: what it is, the document node that it comes from, its name, the plan nodes below it in
/// order of port, and what the links to these are.
#[derive(Debug, Drop)]
pub(crate) struct NodeParts {
    pub part: Part,
    pub document: u32,
    pub name: String,
    pub lower: Vec<u32>,
    pub link: LinkKind,
}

impl Model for NodeParts {
    ghost use Rattle.elaborate.specs.Plan.{PlanNode};
    ghost use Rattle.elaborate.specs.Inside.{part_kept};

    ghost Value = { PlanNode };

    ghost view = { part_kept };
}

impl NodeParts {
    // The plan node with these fields.
    pub(crate) fn new(
        part: Part,
        document: u32,
        name: String,
        lower: Vec<u32>,
        link: LinkKind,
    ) -> NodeParts
        ensures { result ≡ record { part = part; document = document; name = string_bytes name; lower = lower.items; link = link } }
    {
        NodeParts {
            part,
            document,
            name,
            lower,
            link,
        }
    }

    // What the node is.
    pub(crate) fn part(&self) -> Part
        ensures { result ≡ self.now.part }
    {
        self.part
    }

    // The document node that it comes from.
    pub(crate) fn document(&self) -> u32
        ensures { result ≡ self.now.document }
    {
        self.document
    }

    // Its name.
    pub(crate) fn name(&self) -> &str
        ensures { result.now ≡ self.now.name }
    {
        &self.name
    }

    // The plan nodes below it.
    pub(crate) fn lower(&self) -> &[u32]
        ensures { result.now ≡ self.now.lower }
    {
        &self.lower
    }

    // What the links to these are.
    pub(crate) fn link(&self) -> LinkKind
        ensures { result ≡ self.now.link }
    {
        self.link
    }
}
