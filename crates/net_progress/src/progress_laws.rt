//! That no network gets stuck, and by when its run is finished.

ghost use Rattle.net_progress.specs.Moving.{NeverStuck};
ghost use Rattle.net_progress.specs.Transfers.{FewTransfers, FinishesInTime};

use net_model::AnyKind;

/// In one of a few rounds from each unfinished state on, some node takes or puts a beat.
pub fn never_stuck<K: AnyKind>()
    ensures { NeverStuck K.kind }
{}

/// Each beat that a link has to carry moves twice at most, so that a run is finished in time.
pub fn laws_of_transfers<K: AnyKind>()
    ensures few { FewTransfers K.kind }
    ensures finished { FinishesInTime K.kind }
{}
