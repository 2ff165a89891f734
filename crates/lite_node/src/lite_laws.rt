//! What holds of a Lite bridge's definitions.

ghost use Rattle.node_shape.specs.KindLaws.{AnswersAbove, AsksBelow, Begins, Fit, IdleHoldsNothing};
ghost use Rattle.node_shape.specs.KindLaws.{Lasts, MayDecide, Opens, Own, Rests, Stays, Steady};
ghost use Rattle.node_shape.specs.LocalLaws.{AddressesTaken, AnswersTaken, DataAwaited, EntriesStay};
ghost use Rattle.node_shape.specs.WayLaws.{CutsFit, FillsAtEnds, GoesBelow, HasWay, OriginsFit, WaysSuit};
ghost use Rattle.lite_node.specs.LiteLaws.{lite_alone, lite_inside};

/// What a Lite bridge's table does, of every state and all links.
pub fn laws_of_table()
    // Each take has its head and each put its room, on its own links.
    ensures fit { Fit lite_alone }
    ensures own { Own lite_alone }

    // Its links stay, and what holds of it is kept.
    ensures steady { Steady lite_alone }
    ensures begins { Begins lite_alone }
    ensures stays { Stays lite_alone }

    // Where no row's condition holds, nothing happens.
    ensures rests { Rests lite_alone }
{}

/// What a Lite bridge does wherever it can.
pub fn local_laws()
    ensures answers_taken { AnswersTaken lite_alone lite_inside }
    ensures addresses_taken { AddressesTaken lite_alone lite_inside }
    ensures data_awaited { DataAwaited lite_alone lite_inside }
    ensures entries_stay { EntriesStay lite_alone lite_inside }
{}

/// How transactions go through a Lite bridge: each goes on in whole words, on an AXI4-Lite link.
pub fn laws_of_ways()
    ensures has_way { HasWay lite_alone }
    ensures goes_below { GoesBelow lite_alone }
    ensures origins_fit { OriginsFit lite_alone }
    ensures cuts_fit { CutsFit lite_alone }
    ensures ways_suit { WaysSuit lite_alone }
{}

/// What a Lite bridge has passed on its links, between nodes that ask and answer as they should.
pub fn laws_of_trails()
    // What holds of its trails at the start lasts from round to round, and lets it decide.
    ensures opens { Opens lite_alone }
    ensures may_decide { MayDecide lite_alone }
    ensures lasts { Lasts lite_alone }

    // It asks below as it is asked above, and answers above as it is answered below.
    ensures asks_below { AsksBelow lite_alone }
    ensures answers_above { AnswersAbove lite_alone }
    ensures fills_at_ends { FillsAtEnds lite_alone }

    // Where it does nothing, the cause stands on its links.
    ensures idle_holds_nothing { IdleHoldsNothing lite_alone }
{}
