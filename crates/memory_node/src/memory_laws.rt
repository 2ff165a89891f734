//! What holds of a memory's definitions.

ghost use Rattle.memory_node.specs.BurstBytes.{DueReadsAreOfParts, DueWritesAreOfParts};
ghost use Rattle.memory_node.specs.BurstBytes.{LinesAreOfBurst, ReadsBurstBytes, WritesBeatBytes, WritesBurstBytes};
ghost use Rattle.memory_node.specs.MemoryLaws.{memory_alone, memory_paced};
ghost use Rattle.memory_node.specs.Store.{ReadsOthers, ReadsWritten};
ghost use Rattle.node_shape.specs.KindLaws.{AnswersAbove, AsksBelow, Begins, Fit, IdleHoldsNothing};
ghost use Rattle.node_shape.specs.KindLaws.{Lasts, MayDecide, Opens, Own, Rests, Stays, Steady};
ghost use Rattle.node_shape.specs.Paced.{ArePaced};
ghost use Rattle.node_shape.specs.WayLaws.{CutsFit, FillsAtEnds, GoesBelow, HasWay, OriginsFit, WaysSuit};

/// What a memory's table does, of every state and all links.
pub fn laws_of_table()
    // Each take has its head and each put its room, on its own link.
    ensures fit { Fit memory_alone }
    ensures own { Own memory_alone }

    // Its link stays, and what holds of it is kept.
    ensures steady { Steady memory_alone }
    ensures begins { Begins memory_alone }
    ensures stays { Stays memory_alone }

    // Where no row's condition holds, nothing happens.
    ensures rests { Rests memory_alone }
{}

/// Each row of a memory's table is done as soon as its pace lets it.
pub fn laws_of_rows()
    ensures paced { ArePaced memory_alone memory_paced }
{}

/// The bytes of a memory: what is written at an address is read there, and nowhere else.
pub fn laws_of_bytes()
    ensures reads_written { ReadsWritten }
    ensures reads_others { ReadsOthers }

    // Its beats are those of legal bursts: their lines, and the bytes of them that it reads and writes.
    ensures burst_lines { LinesAreOfBurst }
    ensures reads { ReadsBurstBytes }
    ensures beat_writes { WritesBeatBytes }
    ensures writes { WritesBurstBytes }

    // So what is due of a transaction is what its parts read and write.
    ensures due_reads { DueReadsAreOfParts }
    ensures due_writes { DueWritesAreOfParts }
{}

/// How transactions go to a memory: each ends there.
pub fn laws_of_ways()
    ensures has_way { HasWay memory_alone }
    ensures goes_below { GoesBelow memory_alone }
    ensures origins_fit { OriginsFit memory_alone }
    ensures cuts_fit { CutsFit memory_alone }
    ensures ways_suit { WaysSuit memory_alone }
{}

/// What a memory has passed on its link and accessed, below a node that asks as it should.
pub fn laws_of_trails()
    // What holds of its trail at the start lasts from round to round, and lets it decide.
    ensures opens { Opens memory_alone }
    ensures may_decide { MayDecide memory_alone }
    ensures lasts { Lasts memory_alone }

    // It answers as it should, and knows the bytes that it has read for a read.
    ensures asks_below { AsksBelow memory_alone }
    ensures answers_above { AnswersAbove memory_alone }
    ensures fills_at_ends { FillsAtEnds memory_alone }

    // Where it does nothing for as long as its patience, all that came is answered, or the cause stands
    // on its link.
    ensures idle_holds_nothing { IdleHoldsNothing memory_alone }
{}
