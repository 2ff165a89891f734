//! Any kind of node.

ghost use Rattle.node_shape.specs.Kind.{Kind};
ghost use Rattle.node_shape.specs.KindHolds.{KindHolds};

/// A kind of node that shows what every kind has to show. What is said of networks is said over it, so
/// that no kind is named there.
pub trait AnyKind {
    // The states of its nodes, and what they note.
    ghost state: { Type 0 };

    ghost noted: { Type 0 };

    ghost kind: { Kind state noted };

    ghost holds: { KindHolds kind };
}
