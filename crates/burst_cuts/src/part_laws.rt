//! What holds of the parts of a burst, and of the responses to them.

ghost use Rattle.burst_cuts.specs.PartLaws.{ClosedGroup, FirstGroups, OpenGroup};
ghost use Rattle.burst_cuts.specs.PartLaws.{PartsAreAsManyAsBeats, PartsAreInPage, PartsAreLegal, PartsAreSmall};
ghost use Rattle.burst_cuts.specs.PartLaws.{PartsHaveItsBytes, PartsHaveItsLanes, PartsWriteItsBytes};

/// The laws of the parts of bursts (Arm IHI 0022, burst address structure).
pub fn laws_of_parts()
    // Each is a legal burst where its burst is.
    ensures legal { PartsAreLegal }
    ensures page { PartsAreInPage }
    ensures small { PartsAreSmall }
    ensures many { PartsAreAsManyAsBeats }

    // Together they transfer what the bursts do.
    ensures lanes { PartsHaveItsLanes }
    ensures bytes { PartsHaveItsBytes }
    ensures written { PartsWriteItsBytes }
{}

/// The laws of the responses to bursts, of which each is the worst of those to its parts (Arm IHI 0022,
/// read and write response structure).
pub fn laws_of_groups()
    ensures first { FirstGroups }
    ensures unanswered { OpenGroup }
    ensures closed { ClosedGroup }
{}
