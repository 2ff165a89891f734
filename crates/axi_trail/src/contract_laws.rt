//! What holds of every link that keeps the two contracts.

ghost use Rattle.axi_trail.specs.Example.{ExampleKeepsContracts};
ghost use Rattle.axi_trail.specs.ContractLaws.{AskingGoesDown, AnsweringGoesUp, AskedThroughLink, AnsweredThroughLink, OwnRequestsInOrder, HeldHaveOneId, OldestHeldIsNextOfItsOwn, AnsweredHaveTheirData};

/// The laws of asking and answering on one link.
pub fn laws_of_contracts()
    // From one end of a link to the other.
    ensures down { AskingGoesDown }
    ensures up { AnsweringGoesUp }
    ensures asked { AskedThroughLink }
    ensures answered { AnsweredThroughLink }

    // At one end of a link.
    ensures own { OwnRequestsInOrder }
    ensures chain { HeldHaveOneId }
    ensures next { OldestHeldIsNextOfItsOwn }
    ensures written { AnsweredHaveTheirData }
{}

/// The contracts can be kept, and not by saying nothing: a read and a write through one link, where
/// both are answered and a beat of the read is still under way.
pub fn example_of_contracts()
    ensures { ExampleKeepsContracts }
{}
