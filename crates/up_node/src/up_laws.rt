//! What holds of an up converter's definitions.

ghost use Rattle.node_shape.specs.KindLaws.{AnswersAbove, AsksBelow, Begins, Fit, IdleHoldsNothing};
ghost use Rattle.node_shape.specs.KindLaws.{Lasts, MayDecide, Opens, Own, Rests, Stays, Steady};
ghost use Rattle.node_shape.specs.LocalLaws.{AddressesTaken, AnswersTaken, DataAwaited, EntriesStay};
ghost use Rattle.node_shape.specs.WayLaws.{CutsFit, FillsAtEnds, GoesBelow, HasWay, OriginsFit, WaysSuit};
ghost use Rattle.up_node.specs.UpLaws.{up_alone, up_inside};

/// What an up converter's table does, of every state and all links.
pub fn laws_of_table()
    // Each take has its head and each put its room, on its own links.
    ensures fit { Fit up_alone }
    ensures own { Own up_alone }

    // Its links stay, and what holds of it is kept.
    ensures steady { Steady up_alone }
    ensures begins { Begins up_alone }
    ensures stays { Stays up_alone }

    // Where no row's condition holds, nothing happens.
    ensures rests { Rests up_alone }
{}

/// What an up converter does wherever it can.
pub fn local_laws()
    ensures answers_taken { AnswersTaken up_alone up_inside }
    ensures addresses_taken { AddressesTaken up_alone up_inside }
    ensures data_awaited { DataAwaited up_alone up_inside }
    ensures entries_stay { EntriesStay up_alone up_inside }
{}

/// How transactions go through an up converter: each goes on with its data moved to the lanes of
/// the wide bus.
pub fn laws_of_ways()
    ensures has_way { HasWay up_alone }
    ensures goes_below { GoesBelow up_alone }
    ensures origins_fit { OriginsFit up_alone }
    ensures cuts_fit { CutsFit up_alone }
    ensures ways_suit { WaysSuit up_alone }
{}

/// What an up converter has passed on its links, between nodes that ask and answer as they should.
pub fn laws_of_trails()
    // What holds of its trails at the start lasts from round to round, and lets it decide.
    ensures opens { Opens up_alone }
    ensures may_decide { MayDecide up_alone }
    ensures lasts { Lasts up_alone }

    // It asks below as it is asked above, and answers above as it is answered below.
    ensures asks_below { AsksBelow up_alone }
    ensures answers_above { AnswersAbove up_alone }
    ensures fills_at_ends { FillsAtEnds up_alone }

    // Where it does nothing, the cause stands on its links.
    ensures idle_holds_nothing { IdleHoldsNothing up_alone }
{}
