//! What holds of write data and of the bytes of read data, whatever a node does.

ghost use Rattle.axi_trail.specs.DataLaws.{OldestHasItsData, AnsweredAfterData, NoneLacksData, BytesOfOneMore};

/// The laws of data (Arm IHI 0022, relationships between the channels): a write is answered after its
/// data; and one more beat of read data.
pub fn laws_of_data()
    ensures oldest { OldestHasItsData }
    ensures after { AnsweredAfterData }
    ensures none { NoneLacksData }
    ensures bytes { BytesOfOneMore }
{}
