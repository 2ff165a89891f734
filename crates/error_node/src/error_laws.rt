//! What holds of an error subordinate's definitions.

ghost use Rattle.error_node.specs.ErrorLaws.{error_alone, error_paced};
ghost use Rattle.node_shape.specs.KindLaws.{AnswersAbove, AsksBelow, Begins, Fit, IdleHoldsNothing};
ghost use Rattle.node_shape.specs.KindLaws.{Lasts, MayDecide, Opens, Own, Rests, Stays, Steady};
ghost use Rattle.node_shape.specs.Paced.{ArePaced};
ghost use Rattle.node_shape.specs.WayLaws.{CutsFit, FillsAtEnds, GoesBelow, HasWay, OriginsFit, WaysSuit};

/// What an error subordinate's table does, of every state and all links.
pub fn laws_of_table()
    // Each take has its head and each put its room, on its own link.
    ensures fit { Fit error_alone }
    ensures own { Own error_alone }

    // Its link stays, and what holds of it is kept.
    ensures steady { Steady error_alone }
    ensures begins { Begins error_alone }
    ensures stays { Stays error_alone }

    // Where no row's condition holds, nothing happens.
    ensures rests { Rests error_alone }
{}

/// Each row of an error subordinate's table is done as soon as its condition holds.
pub fn laws_of_rows()
    ensures paced { ArePaced error_alone error_paced }
{}

/// How transactions go to an error subordinate: each ends there.
pub fn laws_of_ways()
    ensures has_way { HasWay error_alone }
    ensures goes_below { GoesBelow error_alone }
    ensures origins_fit { OriginsFit error_alone }
    ensures cuts_fit { CutsFit error_alone }
    ensures ways_suit { WaysSuit error_alone }
{}

/// What an error subordinate has passed on its link, below a node that asks as it should.
pub fn laws_of_trails()
    // What holds of its trail at the start lasts from round to round, and lets it decide.
    ensures opens { Opens error_alone }
    ensures may_decide { MayDecide error_alone }
    ensures lasts { Lasts error_alone }

    // It answers as it should.
    ensures asks_below { AsksBelow error_alone }
    ensures answers_above { AnswersAbove error_alone }
    ensures fills_at_ends { FillsAtEnds error_alone }

    // Where it does nothing, all that came is answered, or the cause stands on its link.
    ensures idle_holds_nothing { IdleHoldsNothing error_alone }
{}
