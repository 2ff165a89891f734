//! The links of a plan.

use topology::LinkKind;

/// A link: its two plan nodes, what it is, and how many beats each of its queues has room for.
#[derive(Debug, Clone, Copy, PartialEq, Eq, Default)]
pub struct PlanLink {
    /// The plan node above.
    pub upper: u32,
    /// The plan node below.
    pub lower: u32,
    /// Its protocol, bus and ID width.
    pub link: LinkKind,
    /// The room of each queue, in beats.
    pub depth: u8,
}
