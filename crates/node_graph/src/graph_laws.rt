//! What holds of graphs without a cycle.

ghost use Rattle.node_graph.specs.Laws.{DeeperStandsLater, DepthsAreSmall, LinksLeadDeeper, OrdersAreWhole, OrdersLeadDown};

/// The laws of depths and of the order that leads downwards. Each is told in plain words in
/// `specs/Laws.antt`.
pub fn laws()
    ensures deeper { LinksLeadDeeper }
    ensures small { DepthsAreSmall }
    ensures whole { OrdersAreWhole }
    ensures later { DeeperStandsLater }
    ensures down { OrdersLeadDown }
{}
