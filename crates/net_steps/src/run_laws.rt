//! Each network that can be run may be run on, round by round.

ghost use Rattle.net_steps.specs.NetView.{SoundNetsCommit, SoundNetsDecide};

/// In every round of a network that can be run its nodes may decide, and then its links can move.
pub fn laws_of_rounds()
    ensures decide { SoundNetsDecide }
    ensures commit { SoundNetsCommit }
{}
