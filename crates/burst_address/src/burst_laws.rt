//! What holds of bursts. Where a law needs it, it asks that the burst is legal.
ghost use Rattle.burst_address.specs.Laws.{LegalOnWider, OnePage, BelowLimit, OneLine, ValidCount, LanesFollow, IncrAscends, WrapVisitsOnce, FixedRepeats, StrobesBelow, WritesBeatByBeat, IdIsNoMatter};

/// The laws of bursts and their bytes. Each is told in plain words in `specs/Laws.antt`.
pub fn laws()
    ensures wider { LegalOnWider }

    // Where the bytes lie.
    ensures page { OnePage }
    ensures limit { BelowLimit }
    ensures line { OneLine }

    // The valid bytes and lanes of a beat.
    ensures count { ValidCount }
    ensures follow { LanesFollow }
    ensures strobes { StrobesBelow }

    // The bytes of the three kinds.
    ensures incr { IncrAscends }
    ensures wrap { WrapVisitsOnce }
    ensures fixed { FixedRepeats }

    // What a write writes.
    ensures written { WritesBeatByBeat }

    // What isn't asked.
    ensures id { IdIsNoMatter }
{}
