//! The words for the parts of a plan and for the protocols of its links.

ghost use Rattle.std.specs.Prelude.{◌≡◌, ◌≤◌, length};
ghost use Rattle.plan_text.specs.PlanText.{part_name, protocol_name};

use elaborate::Part;

/// The word for a part.
pub(crate) fn part_name(part: Part) -> &'static str
    ensures name { result.now ≡ part_name part }
    ensures short { length result.now ≤ 11 }
{
    match part {
        Part::Manager => "manager",
        Part::Memory => "memory",
        Part::LiteMemory => "lite_memory",
        Part::Slice => "slice",
        Part::Mux => "mux",
        Part::Demux => "demux",
        Part::Error => "error",
        Part::Remap => "remap",
        Part::Split => "split",
        Part::Up => "up",
        Part::Down => "down",
        Part::Lite => "lite",
    }
}

/// The word for AXI4 or AXI4-Lite.
pub(crate) fn protocol_name(lite: bool) -> &'static str
    ensures name { result.now ≡ protocol_name lite }
    ensures short { length result.now ≤ 4 }
{
    if lite { "lite" } else { "axi" }
}
