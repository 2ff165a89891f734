//! The port of a link breaks none of the rules of its kind.

ghost use Rattle.link_ports.specs.Example.{ExamplePort, HastyPort, PortExampleKeepsContracts};
ghost use Rattle.link_ports.specs.Example.{PortWithIds, WordScheduleIsLegal};
ghost use Rattle.link_ports.specs.PortLaws.{RoundsAreLegal, LinksAreLegal, WordsAreShown, LinksKeepTheirRules};

/// A round, and the whole history of a link whose two nodes keep their contracts, by the rules of AXI4;
/// and by those of AXI4-Lite where the link is one of AXI4-Lite and has words alone to carry.
pub fn laws_of_ports()
    ensures round { RoundsAreLegal }
    ensures history { LinksAreLegal }
    ensures words { WordsAreShown }
    ensures kinds { LinksKeepTheirRules }
{}

/// The port of a link through which a write goes. What the law of histories asks of a link can be
/// met: this link meets it. Without IDs it would have a word alone to carry; with them its port is none
/// of AXI4-Lite.
pub fn example_of_ports()
    ensures port { ExamplePort }
    ensures hasty { HastyPort }
    ensures contracts { PortExampleKeepsContracts }
    ensures ids { PortWithIds }
    ensures words { WordScheduleIsLegal }
{}
