//! Histories that are judged by hand: those of a network, and those of a port.
ghost use Rattle.axi_history.specs.KnownHistories.{GoodHistory, UnansweredHistories, UndeliveredHistories};
ghost use Rattle.axi_history.specs.KnownTraces.{Handshakes, Addresses, WriteData, Responses, ReadData};

/// What `Delivered` and `Answered` say of known histories: of a good one that they hold, and of this
/// one with a single change in it that they don't. The histories stand in `specs/KnownHistories.antt`.
pub fn known_histories()
    ensures good { GoodHistory }
    ensures not_delivered { UndeliveredHistories }
    ensures not_answered { UnansweredHistories }
{}

/// What known traces of a port break first. The traces stand in `specs/KnownTraces.antt`.
pub fn known_traces()
    ensures handshakes { Handshakes }
    ensures addresses { Addresses }
    ensures write_data { WriteData }
    ensures responses { Responses }
    ensures read_data { ReadData }
{}
