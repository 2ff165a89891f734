//! What holds of a manager's definitions.

ghost use Rattle.manager_node.specs.BurstLaws.{DataStrobesAreWithin, DataStrobesValidLanes};
ghost use Rattle.manager_node.specs.BurstLaws.{DataWritesItsBytes};
ghost use Rattle.manager_node.specs.ManagerLaws.{DoneIsAnswered, manager_alone, manager_paced};
ghost use Rattle.manager_node.specs.ManagerOrder.{NotesStay};
ghost use Rattle.node_shape.specs.KindLaws.{AnswersAbove, AsksBelow, Begins, Fit, IdleHoldsNothing};
ghost use Rattle.node_shape.specs.KindLaws.{Lasts, MayDecide, Opens, Own, Rests, Stays, Steady};
ghost use Rattle.node_shape.specs.Paced.{ArePaced};
ghost use Rattle.node_shape.specs.WayLaws.{CutsFit, FillsAtEnds, GoesBelow, HasWay, OriginsFit, WaysSuit};

/// What a manager's table does, of every state and all links.
pub fn laws_of_table()
    // Each take has its head and each put its room, on its own link.
    ensures fit { Fit manager_alone }
    ensures own { Own manager_alone }

    // Its link stays, and what holds of it is kept.
    ensures steady { Steady manager_alone }
    ensures begins { Begins manager_alone }
    ensures stays { Stays manager_alone }

    // Where no row's condition holds, nothing happens.
    ensures rests { Rests manager_alone }
{}

/// A row is done as soon as its pace lets it.
pub fn laws_of_rows()
    ensures { ArePaced manager_alone manager_paced }
{}

/// How transactions go through a manager: those of its script start there.
pub fn laws_of_ways()
    ensures has_way { HasWay manager_alone }
    ensures goes_below { GoesBelow manager_alone }
    ensures origins_fit { OriginsFit manager_alone }
    ensures cuts_fit { CutsFit manager_alone }
    ensures ways_suit { WaysSuit manager_alone }
{}

/// What a manager has passed on its link, below which a node answers as it should.
pub fn laws_of_trails()
    // What holds of its trail at the start lasts from round to round, and lets it decide.
    ensures opens { Opens manager_alone }
    ensures may_decide { MayDecide manager_alone }
    ensures lasts { Lasts manager_alone }

    // It asks below as it should.
    ensures asks_below { AsksBelow manager_alone }
    ensures answers_above { AnswersAbove manager_alone }
    ensures fills_at_ends { FillsAtEnds manager_alone }

    // Where it does nothing, the cause stands on its link.
    ensures idle_holds_nothing { IdleHoldsNothing manager_alone }
{}

/// What a manager notes: a round once and for all, and where it is done, an answer to each transaction.
pub fn laws_of_notes()
    ensures stay { NotesStay }
    ensures done { DoneIsAnswered }
{}

/// What the data beats of a write are, where its burst is legal and the script has a byte for each
/// valid one of it.
pub fn laws_of_bursts()
    // They write the bytes that the script strobes, each at its address and in burst order.
    ensures bytes { DataWritesItsBytes }

    // The strobes of each beat stand on its valid lanes.
    ensures strobes { DataStrobesAreWithin }
    ensures valid { DataStrobesValidLanes }
{}
