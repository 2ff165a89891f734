//! What holds of a remapper's definitions.

ghost use Rattle.node_shape.specs.KindLaws.{AnswersAbove, AsksBelow, Begins, Fit, IdleHoldsNothing};
ghost use Rattle.node_shape.specs.KindLaws.{Lasts, MayDecide, Opens, Own, Rests, Stays, Steady};
ghost use Rattle.node_shape.specs.LocalLaws.{AddressesTaken, AnswersTaken, DataAwaited, EntriesStay};
ghost use Rattle.node_shape.specs.WayLaws.{CutsFit, FillsAtEnds, GoesBelow, HasWay, OriginsFit, WaysSuit};
ghost use Rattle.remap_node.specs.RemapLaws.{remap_alone, remap_inside};

/// What a remapper's table does, of every state and all links.
pub fn laws_of_table()
    // Each take has its head and each put its room, on its own links.
    ensures fit { Fit remap_alone }
    ensures own { Own remap_alone }

    // Its links stay, and what holds of it is kept.
    ensures steady { Steady remap_alone }
    ensures begins { Begins remap_alone }
    ensures stays { Stays remap_alone }

    // Where no row's condition holds, nothing happens.
    ensures rests { Rests remap_alone }
{}

/// What a remapper does wherever it can.
pub fn local_laws()
    ensures answers_taken { AnswersTaken remap_alone remap_inside }
    ensures addresses_taken { AddressesTaken remap_alone remap_inside }
    ensures data_awaited { DataAwaited remap_alone remap_inside }
    ensures entries_stay { EntriesStay remap_alone remap_inside }
{}

/// How transactions go through a remapper: each goes on as it is, on a link that is alike but for the
/// width of its IDs.
pub fn laws_of_ways()
    ensures has_way { HasWay remap_alone }
    ensures goes_below { GoesBelow remap_alone }
    ensures origins_fit { OriginsFit remap_alone }
    ensures cuts_fit { CutsFit remap_alone }
    ensures ways_suit { WaysSuit remap_alone }
{}

/// What a remapper has passed on its links, between nodes that ask and answer as they should.
pub fn laws_of_trails()
    // What holds of its trails at the start lasts from round to round, and lets it decide.
    ensures opens { Opens remap_alone }
    ensures may_decide { MayDecide remap_alone }
    ensures lasts { Lasts remap_alone }

    // It asks below as it is asked above, and answers above as it is answered below, under other IDs.
    ensures asks_below { AsksBelow remap_alone }
    ensures answers_above { AnswersAbove remap_alone }
    ensures fills_at_ends { FillsAtEnds remap_alone }

    // Where it does nothing, the cause stands on its links.
    ensures idle_holds_nothing { IdleHoldsNothing remap_alone }
{}
