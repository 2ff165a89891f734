//! What holds of the codes.

ghost use Rattle.axi_beats.specs.Codes.{BurstCodesAreInverse, ResponseCodesAreInverse};

/// The codes of the kinds of bursts and of the responses, told in plain words in `specs/Codes.antt`.
pub fn laws()
    ensures bursts { BurstCodesAreInverse }
    ensures responses { ResponseCodesAreInverse }
{}
