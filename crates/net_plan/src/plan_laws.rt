//! What holds of the network of every plan before its first round.

ghost use Rattle.net_plan.specs.PlanLaws.{FormsAreOfLinks, OpeningsAreSound, OpeningsAreWired};

/// The network of a document that can run is wired.
pub fn openings_are_wired()
    ensures { OpeningsAreWired }
{}

/// The forms of a plan's links are those of the network's.
pub fn forms_of_links()
    ensures { FormsAreOfLinks }
{}

/// With traffic that suits it, the network of a document that can run is one that can be run.
pub fn openings_are_sound()
    ensures { OpeningsAreSound }
{}
