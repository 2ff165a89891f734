//! Which keys the table of a node has.

ghost use Rattle.std.specs.Prelude.{◌≡◌};
ghost use Rattle.topology_text.specs.Form.{table_form, kind_named};

use crate::kind::Kind;

/// Whether the tables of a kind have a key.
#[derive(Debug, Clone, Copy, PartialEq, Eq)]
pub(crate) enum Presence {
    /// None of them has it.
    Never,
    /// It may be left out, and has a default.
    Optional,
    /// Each of them has it.
    Required,
}

/// The keys of a kind besides `name` and `kind`.
#[derive(Debug, Clone, Copy)]
pub(crate) struct Form {
    pub to: Presence,
    pub region: Presence,
    pub bus: Presence,
    pub id_width: Presence,
    pub depth: Presence,
    pub base: Presence,
    pub size: Presence,
    pub fill: Presence,
    pub read_only: Presence,
    pub hole: Presence,
    pub accept: Presence,
    pub give: Presence,
}

// The form of a table that has no key besides `name` and `kind`.
const NO_KEYS: Form = Form {
    to: Presence::Never,
    region: Presence::Never,
    bus: Presence::Never,
    id_width: Presence::Never,
    depth: Presence::Never,
    base: Presence::Never,
    size: Presence::Never,
    fill: Presence::Never,
    read_only: Presence::Never,
    hole: Presence::Never,
    accept: Presence::Never,
    give: Presence::Never,
};

impl Form {
    /// The form of the tables of a kind.
    #[tactic(auto, unfolding(crate::specs::Form::table_form))]
    pub(crate) fn of(kind: Kind) -> Form
        ensures { result ≡ table_form kind }
    {
        match kind {
            Kind::Manager => Form {
                bus: Presence::Required,
                id_width: Presence::Required,
                accept: Presence::Optional,
                give: Presence::Optional,
                ..Form::PASSES
            },
            Kind::Memory => Form {
                bus: Presence::Required,
                ..Form::ANSWERS
            },
            Kind::LiteMemory => Form::ANSWERS,
            Kind::Slice | Kind::Mux | Kind::Lite => Form::PASSES,
            Kind::Demux | Kind::Crossbar => Form::CHOOSES,
            Kind::Remap => Form {
                id_width: Presence::Required,
                ..Form::PASSES
            },
            Kind::Up | Kind::Down => Form {
                bus: Presence::Required,
                ..Form::PASSES
            },
        }
    }

    // One node stands below.
    const PASSES: Form = Form {
        to: Presence::Required,
        depth: Presence::Optional,
        ..NO_KEYS
    };

    // The address chooses the node below.
    const CHOOSES: Form = Form {
        region: Presence::Required,
        depth: Presence::Optional,
        ..NO_KEYS
    };

    // No node stands below, and bytes are kept.
    const ANSWERS: Form = Form {
        base: Presence::Required,
        size: Presence::Required,
        fill: Presence::Optional,
        read_only: Presence::Optional,
        hole: Presence::Optional,
        accept: Presence::Optional,
        give: Presence::Optional,
        ..NO_KEYS
    };
}

/// The kind with this name.
#[tactic(auto, unfolding(crate::specs::Form::kind_named))]
pub(crate) fn kind_named(name: &str) -> Option<Kind>
    ensures { result ≡ kind_named name.now }
{
    match name {
        "manager" => Some(Kind::Manager),
        "memory" => Some(Kind::Memory),
        "lite_memory" => Some(Kind::LiteMemory),
        "slice" => Some(Kind::Slice),
        "mux" => Some(Kind::Mux),
        "demux" => Some(Kind::Demux),
        "crossbar" => Some(Kind::Crossbar),
        "remap" => Some(Kind::Remap),
        "up" => Some(Kind::Up),
        "down" => Some(Kind::Down),
        "lite" => Some(Kind::Lite),
        _ => None,
    }
}
