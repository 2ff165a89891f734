//! What holds of a slice's definitions.

ghost use Rattle.node_shape.specs.KindLaws.{AnswersAbove, AsksBelow, Begins, Fit, IdleHoldsNothing};
ghost use Rattle.node_shape.specs.KindLaws.{Lasts, MayDecide, Opens, Own, Rests, Stays, Steady};
ghost use Rattle.node_shape.specs.LocalLaws.{AddressesTaken, AnswersTaken, DataAwaited, EntriesStay};
ghost use Rattle.node_shape.specs.WayLaws.{CutsFit, FillsAtEnds, GoesBelow, HasWay, OriginsFit, WaysSuit};
ghost use Rattle.slice_node.specs.SliceLaws.{slice_alone, slice_inside};

/// What a slice's table does, of every state and all links.
pub fn laws_of_table()
    // Each take has its head and each put its room, on its own links.
    ensures fit { Fit slice_alone }
    ensures own { Own slice_alone }

    // Its links stay, and what holds of it is kept.
    ensures steady { Steady slice_alone }
    ensures begins { Begins slice_alone }
    ensures stays { Stays slice_alone }

    // Where no row's condition holds, nothing happens.
    ensures rests { Rests slice_alone }
{}

/// What a slice does wherever it can.
pub fn local_laws()
    ensures answers_taken { AnswersTaken slice_alone slice_inside }
    ensures addresses_taken { AddressesTaken slice_alone slice_inside }
    ensures data_awaited { DataAwaited slice_alone slice_inside }
    ensures entries_stay { EntriesStay slice_alone slice_inside }
{}

/// How transactions go through a slice: each goes on as it is, on a link of the same form.
pub fn laws_of_ways()
    ensures has_way { HasWay slice_alone }
    ensures goes_below { GoesBelow slice_alone }
    ensures origins_fit { OriginsFit slice_alone }
    ensures cuts_fit { CutsFit slice_alone }
    ensures ways_suit { WaysSuit slice_alone }
{}

/// What a slice has passed on its links, between nodes that ask and answer as they should.
pub fn laws_of_trails()
    // What holds of its trails at the start lasts from round to round, and lets it decide.
    ensures opens { Opens slice_alone }
    ensures may_decide { MayDecide slice_alone }
    ensures lasts { Lasts slice_alone }

    // It asks below as it is asked above, and answers above as it is answered below.
    ensures asks_below { AsksBelow slice_alone }
    ensures answers_above { AnswersAbove slice_alone }
    ensures fills_at_ends { FillsAtEnds slice_alone }

    // Where it does nothing, the cause stands on its links.
    ensures idle_holds_nothing { IdleHoldsNothing slice_alone }
{}
