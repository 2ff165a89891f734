//! What holds of a Lite memory's definitions.

ghost use Rattle.lite_memory_node.specs.LiteMemoryLaws.{lite_memory_alone, lite_memory_paced};
ghost use Rattle.lite_memory_node.specs.WordLaws.{AnswersWholeWord, AnswersWordStatus};
ghost use Rattle.node_shape.specs.KindLaws.{AnswersAbove, AsksBelow, Begins, Fit, IdleHoldsNothing};
ghost use Rattle.node_shape.specs.KindLaws.{Lasts, MayDecide, Opens, Own, Rests, Stays, Steady};
ghost use Rattle.node_shape.specs.Paced.{ArePaced};
ghost use Rattle.node_shape.specs.WayLaws.{CutsFit, FillsAtEnds, GoesBelow, HasWay, OriginsFit, WaysSuit};

/// What a Lite memory's table does, of every state and all links.
pub fn laws_of_table()
    // Each take has its head and each put its room, on its own link.
    ensures fit { Fit lite_memory_alone }
    ensures own { Own lite_memory_alone }

    // Its link stays, and what holds of it is kept.
    ensures steady { Steady lite_memory_alone }
    ensures begins { Begins lite_memory_alone }
    ensures stays { Stays lite_memory_alone }

    // Where no row's condition holds, nothing happens.
    ensures rests { Rests lite_memory_alone }
{}

/// Each row of a Lite memory's table is done as soon as its pace lets it.
pub fn laws_of_rows()
    ensures paced { ArePaced lite_memory_alone lite_memory_paced }
{}

/// What a memory answers to a request for a whole word: all lanes of the bus, and the status of all its bytes.
pub fn laws_of_words()
    ensures lanes { AnswersWholeWord }
    ensures status { AnswersWordStatus }
{}

/// How transactions go to a Lite memory: each ends there.
pub fn laws_of_ways()
    ensures has_way { HasWay lite_memory_alone }
    ensures goes_below { GoesBelow lite_memory_alone }
    ensures origins_fit { OriginsFit lite_memory_alone }
    ensures cuts_fit { CutsFit lite_memory_alone }
    ensures ways_suit { WaysSuit lite_memory_alone }
{}

/// What a Lite memory has passed on its link and accessed, below a node that asks as it should.
pub fn laws_of_trails()
    // What holds of its trail at the start lasts from round to round, and lets it decide.
    ensures opens { Opens lite_memory_alone }
    ensures may_decide { MayDecide lite_memory_alone }
    ensures lasts { Lasts lite_memory_alone }

    // It answers as it should, and knows the bytes that it has read for a read.
    ensures asks_below { AsksBelow lite_memory_alone }
    ensures answers_above { AnswersAbove lite_memory_alone }
    ensures fills_at_ends { FillsAtEnds lite_memory_alone }

    // Where it does nothing for as long as its patience, all that came is answered, or the cause stands
    // on its link.
    ensures idle_holds_nothing { IdleHoldsNothing lite_memory_alone }
{}
