//! What holds of a demux's definitions.

ghost use Rattle.demux_node.specs.DemuxLaws.{demux_alone, demux_inside};
ghost use Rattle.node_shape.specs.KindLaws.{AnswersAbove, AsksBelow, Begins, Fit, IdleHoldsNothing};
ghost use Rattle.node_shape.specs.KindLaws.{Lasts, MayDecide, Opens, Own, Rests, Stays, Steady};
ghost use Rattle.node_shape.specs.LocalLaws.{AddressesTaken, AnswersTaken, DataAwaited, EntriesStay};
ghost use Rattle.node_shape.specs.WayLaws.{CutsFit, FillsAtEnds, GoesBelow, HasWay, OriginsFit, WaysSuit};

/// What a demux's table does, of every state and all links.
pub fn laws_of_table()
    // Each take has its head and each put its room, on its own links.
    ensures fit { Fit demux_alone }
    ensures own { Own demux_alone }

    // Its links stay, and what holds of it is kept.
    ensures steady { Steady demux_alone }
    ensures begins { Begins demux_alone }
    ensures stays { Stays demux_alone }

    // Where no row's condition holds, nothing happens.
    ensures rests { Rests demux_alone }
{}

/// What a demux does wherever it can.
pub fn local_laws()
    ensures answers_taken { AnswersTaken demux_alone demux_inside }
    ensures addresses_taken { AddressesTaken demux_alone demux_inside }
    ensures data_awaited { DataAwaited demux_alone demux_inside }
    ensures entries_stay { EntriesStay demux_alone demux_inside }
{}

/// How transactions go through a demux: each as it is, by the port of its addresses, on a link of the
/// same form.
pub fn laws_of_ways()
    ensures has_way { HasWay demux_alone }
    ensures goes_below { GoesBelow demux_alone }
    ensures origins_fit { OriginsFit demux_alone }
    ensures cuts_fit { CutsFit demux_alone }
    ensures ways_suit { WaysSuit demux_alone }
{}

/// What a demux has passed on its links, between nodes that ask and answer as they should.
pub fn laws_of_trails()
    // What holds of its trails at the start lasts from round to round, and lets it decide.
    ensures opens { Opens demux_alone }
    ensures may_decide { MayDecide demux_alone }
    ensures lasts { Lasts demux_alone }

    // It asks below as it is asked above, and answers above as it is answered below.
    ensures asks_below { AsksBelow demux_alone }
    ensures answers_above { AnswersAbove demux_alone }
    ensures fills_at_ends { FillsAtEnds demux_alone }

    // Where it does nothing, the cause stands on its links.
    ensures idle_holds_nothing { IdleHoldsNothing demux_alone }
{}
