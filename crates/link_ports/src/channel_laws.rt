//! Each channel of a link keeps its rules in each round.

ghost use Rattle.link_ports.specs.PortLaws.{WriteAddressesAreLegal, WriteDataIsLegal, WriteResponsesAreLegal, ReadAddressesAreLegal, ReadDataIsLegal};

/// The rules of the five channels, where the node above the link asks and the node below it answers
/// as their contracts say. Each law asks for the contract of the node that puts on its channel alone.
pub fn laws_of_channels()
    // What the node above puts.
    ensures aw { WriteAddressesAreLegal }
    ensures w { WriteDataIsLegal }
    ensures ar { ReadAddressesAreLegal }

    // What the node below puts.
    ensures b { WriteResponsesAreLegal }
    ensures r { ReadDataIsLegal }
{}
