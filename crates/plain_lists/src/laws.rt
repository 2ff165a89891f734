//! What holds of lists, whatever their elements are.

ghost use Rattle.plain_lists.specs.Laws.{OneMoreOfKey, BeginningOfKey, KeysInEitherOrder, OldestLeaves, OthersStay, PickedOfMore, AgreeingIsBeginning, BeginningsAgree, RoundsOneByOne};

/// The laws of entries that stand under keys.
pub fn laws_of_keys()
    // The entries of a key.
    ensures more { OneMoreOfKey }
    ensures beginning { BeginningOfKey }
    ensures either { KeysInEitherOrder }

    // The oldest entry of a key leaves.
    ensures leaves { OldestLeaves }
    ensures others { OthersStay }

    // The entries of selected keys.
    ensures picks { PickedOfMore }
{}

/// The laws of beginnings of lists, and of lists that grow from round to round.
pub fn laws_of_beginnings()
    ensures agreeing { AgreeingIsBeginning }
    ensures agree { BeginningsAgree }
    ensures rounds { RoundsOneByOne }
{}
