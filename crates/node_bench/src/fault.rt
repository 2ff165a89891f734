//! `BenchFault`.

/// Why a bench stops.
#[derive(Clone, Copy, Debug, PartialEq, Eq)]
pub enum BenchFault {
    /// A row's round is over already.
    RoundIsOver(u64),
    /// In this round the node may not decide on its links.
    MayNotDecide(u64),
    /// A take from the link of this number has no head there, or a put no room.
    CannotMove(u32),
    /// There are more links than numbers of links.
    TooManyLinks,
    /// Not all takes on AW, W, B, AR, R are as wanted in this round: those that are, are true.
    OtherTakes(u64, [bool; 5]),
    /// The same of the puts.
    OtherPuts(u64, [bool; 5]),
}
