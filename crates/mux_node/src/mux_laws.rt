//! What holds of a mux's definitions.

ghost use Rattle.mux_node.specs.MuxLaws.{mux_alone, mux_inside};
ghost use Rattle.node_shape.specs.KindLaws.{AnswersAbove, AsksBelow, Begins, Fit, IdleHoldsNothing};
ghost use Rattle.node_shape.specs.KindLaws.{Lasts, MayDecide, Opens, Own, Rests, Stays, Steady};
ghost use Rattle.node_shape.specs.LocalLaws.{AddressesTaken, AnswersTaken, DataAwaited, EntriesStay};
ghost use Rattle.node_shape.specs.WayLaws.{CutsFit, FillsAtEnds, GoesBelow, HasWay, OriginsFit, WaysSuit};

/// What a mux's table does, of every state and all links.
pub fn laws_of_table()
    // Each take has its head and each put its room, on its own links.
    ensures fit { Fit mux_alone }
    ensures own { Own mux_alone }

    // Its links stay, and what holds of it is kept.
    ensures steady { Steady mux_alone }
    ensures begins { Begins mux_alone }
    ensures stays { Stays mux_alone }

    // Where no row's condition holds, nothing happens.
    ensures rests { Rests mux_alone }
{}

/// What a mux does wherever it can.
pub fn local_laws()
    ensures answers_taken { AnswersTaken mux_alone mux_inside }
    ensures addresses_taken { AddressesTaken mux_alone mux_inside }
    ensures data_awaited { DataAwaited mux_alone mux_inside }
    ensures entries_stay { EntriesStay mux_alone mux_inside }
{}

/// How transactions go through a mux: each goes on as it is, on a link that is alike but for its IDs.
pub fn laws_of_ways()
    ensures has_way { HasWay mux_alone }
    ensures goes_below { GoesBelow mux_alone }
    ensures origins_fit { OriginsFit mux_alone }
    ensures cuts_fit { CutsFit mux_alone }
    ensures ways_suit { WaysSuit mux_alone }
{}

/// What a mux has passed on its links, between nodes that ask and answer as they should.
pub fn laws_of_trails()
    // What holds of its trails at the start lasts from round to round, and lets it decide.
    ensures opens { Opens mux_alone }
    ensures may_decide { MayDecide mux_alone }
    ensures lasts { Lasts mux_alone }

    // It asks below as it is asked above, and answers above as it is answered below.
    ensures asks_below { AsksBelow mux_alone }
    ensures answers_above { AnswersAbove mux_alone }
    ensures fills_at_ends { FillsAtEnds mux_alone }

    // Where it does nothing, the cause stands on its links.
    ensures idle_holds_nothing { IdleHoldsNothing mux_alone }
{}
