//! What holds of the links of a plan.

ghost use Rattle.elaborate.specs.LinkLaws.{LinksAreCarriedOn, ManagersBeginLinks, MuxesHaveFewInputs};

/// The laws of links. Each is told in plain words in `specs/LinkLaws.antt`.
pub fn laws_of_links()
    ensures begins { ManagersBeginLinks }
    ensures carried { LinksAreCarriedOn }
    ensures few { MuxesHaveFewInputs }
{}
