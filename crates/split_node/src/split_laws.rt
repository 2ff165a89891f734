//! What holds of a splitter's definitions.

ghost use Rattle.node_shape.specs.KindLaws.{AnswersAbove, AsksBelow, Begins, Fit, IdleHoldsNothing};
ghost use Rattle.node_shape.specs.KindLaws.{Lasts, MayDecide, Opens, Own, Rests, Stays, Steady};
ghost use Rattle.node_shape.specs.LocalLaws.{AddressesTaken, AnswersTaken, DataAwaited, EntriesStay};
ghost use Rattle.node_shape.specs.WayLaws.{CutsFit, FillsAtEnds, GoesBelow, HasWay, OriginsFit, WaysSuit};
ghost use Rattle.split_node.specs.SplitLaws.{NextPartGoesOn, split_alone, split_inside};

/// What a splitter's table does, of every state and all links.
pub fn laws_of_table()
    // Each take has its head and each put its room, on its own links.
    ensures fit { Fit split_alone }
    ensures own { Own split_alone }

    // Its links stay, and what holds of it is kept.
    ensures steady { Steady split_alone }
    ensures begins { Begins split_alone }
    ensures stays { Stays split_alone }

    // Where no row's condition holds, nothing happens.
    ensures rests { Rests split_alone }
{}

/// What a splitter does wherever it can.
pub fn local_laws()
    ensures answers_taken { AnswersTaken split_alone split_inside }
    ensures addresses_taken { AddressesTaken split_alone split_inside }
    ensures data_awaited { DataAwaited split_alone split_inside }
    ensures entries_stay { EntriesStay split_alone split_inside }

    // The parts of a burst go on one after the other.
    ensures next_part { NextPartGoesOn }
{}

/// How transactions go through a splitter: each goes on beat by beat, with the same bytes and in the same
/// page, on a link of the same bus.
pub fn laws_of_ways()
    ensures has_way { HasWay split_alone }
    ensures goes_below { GoesBelow split_alone }
    ensures origins_fit { OriginsFit split_alone }
    ensures cuts_fit { CutsFit split_alone }
    ensures ways_suit { WaysSuit split_alone }
{}

/// What a splitter has passed on its links, between nodes that ask and answer as they should.
pub fn laws_of_trails()
    // What holds of its trails at the start lasts from round to round, and lets it decide.
    ensures opens { Opens split_alone }
    ensures may_decide { MayDecide split_alone }
    ensures lasts { Lasts split_alone }

    // It asks below as it is asked above, and answers above as it is answered below.
    ensures asks_below { AsksBelow split_alone }
    ensures answers_above { AnswersAbove split_alone }
    ensures fills_at_ends { FillsAtEnds split_alone }

    // Where it does nothing, the cause stands on its links.
    ensures idle_holds_nothing { IdleHoldsNothing split_alone }
{}
