//! Traces of an AXI4-Lite port that are judged by hand.
ghost use Rattle.lite_rules.specs.KnownLiteTraces.{LiteHandshakes, LiteAddresses, LiteWriteData, LiteResponses, LiteReadData};

/// What known traces of an AXI4-Lite port break first. They stand in `specs/KnownLiteTraces.antt`.
pub fn known_lite_traces()
    ensures handshakes { LiteHandshakes }
    ensures addresses { LiteAddresses }
    ensures write_data { LiteWriteData }
    ensures responses { LiteResponses }
    ensures read_data { LiteReadData }
{}
