//! What holds of every network that can be run, whatever the kinds of its nodes.

ghost use Rattle.net_ways.specs.SoundLaws.{SoundFinishesInTime, SoundNeverStuck, SoundPortsAreLegal};
ghost use Rattle.net_ways.specs.SoundLaws.{SoundRunsGoOn, SoundRunsKeep, WaysAreAround, WaysKeepBytes};

use net_model::AnyKind;

/// What the links around a node carry has its way through the node, and a way keeps the bytes of its
/// transaction on each of its links.
pub fn laws_of_ways<K: AnyKind>()
    ensures around { WaysAreAround K.kind }
    ensures bytes { WaysKeepBytes K.kind }
{}

/// After every number of rounds every node keeps what its kind keeps, every link asks and answers as it
/// should, and the next round can be made; and every port breaks none of the rules of its kind, where
/// the AXI4-Lite links have no IDs and single beats.
pub fn laws_of_runs<K: AnyKind>()
    ensures keep { SoundRunsKeep K.kind }
    ensures go_on { SoundRunsGoOn K.kind }
    ensures ports { SoundPortsAreLegal K.kind }
{}

/// Some beat moves in one of a few rounds from every unfinished state on, and the run is finished in
/// time.
pub fn laws_of_progress<K: AnyKind>()
    ensures never_stuck { SoundNeverStuck K.kind }
    ensures finished { SoundFinishesInTime K.kind }
{}
