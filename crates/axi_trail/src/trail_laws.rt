//! What holds of the trails of a link's two ends, whatever the nodes do.

ghost use Rattle.axi_trail.specs.TrailLaws.{TrailsGrow, LinksAreQueues, TakenWasPutBefore, HeadsAreBehind, BehindIsTransitive};

/// The laws of trails and of the queues between them.
pub fn laws_of_trails()
    ensures grow { TrailsGrow }
    ensures queues { LinksAreQueues }
    ensures before { TakenWasPutBefore }
    ensures heads { HeadsAreBehind }
    ensures row { BehindIsTransitive }
{}
