//! What holds of moves, turns and paces by their definitions alone.

ghost use Rattle.node_core.specs.Fits.{FittingMovesCanBeMade};
ghost use Rattle.node_core.specs.Pace.{PacesLet};
ghost use Rattle.node_core.specs.Turn.{PickedIsReady, ReadyIsPicked, TurnsGoOn};

/// Where the moves of the node above and of the node below fit the links, each link can make them, as
/// [`Link::commit`](axi_link::Link::commit) asks. Some ready port is picked where there is one, and
/// after a pick the port behind it is tried first. A pace holds a row back for no more than its delay.
pub fn laws()
    ensures moves { FittingMovesCanBeMade }
    ensures picked { PickedIsReady }
    ensures ready { ReadyIsPicked }
    ensures turns { TurnsGoOn }
    ensures paces { PacesLet }
{}
