//! What is seen of one port in one round, on a trace that may be anybody's: so with fields that
//! can hold what the rules of the port forbid. (Arm IHI 0022, channel signals.)

use axi_beats::{Lanes, Tag, WBeat};

/// A port: what it speaks, and how wide its bus is.
#[derive(Clone, Copy, Debug, PartialEq, Eq, Default)]
pub struct PortKind {
    /// AXI4-Lite, else AXI4.
    pub lite: bool,
    /// The width of the data bus in bytes.
    pub bus: u8,
}

/// A beat that a channel offers in a round, which is where VALID is high. (Arm IHI 0022, handshake
/// process.)
#[derive(Clone, Copy, Default)]
pub struct Seen<T> {
    /// The beat.
    pub beat: T,
    /// Whether it is taken in this round: READY is high too.
    pub taken: bool,
}

/// A beat of AW or AR, with every code that the standard's fields can have. (Arm IHI 0022, address
/// structure, exclusive accesses.)
#[derive(Clone, Copy, Debug, PartialEq, Eq, Default)]
pub struct RawAddr {
    /// AxID.
    pub id: u32,
    /// AxADDR.
    pub addr: u64,
    /// AxLEN, one less than the number of beats.
    pub len: u8,
    /// AxSIZE, the exponent of the bytes of a beat.
    pub size: u8,
    /// AxBURST: 0 FIXED, 1 INCR, 2 WRAP, 3 reserved.
    pub burst: u8,
    /// AxLOCK: the access is exclusive.
    pub lock: bool,
    /// What lets a run be followed.
    pub tag: Tag,
}

/// A beat of B. (Arm IHI 0022, read and write response structure.)
#[derive(Clone, Copy, Debug, PartialEq, Eq, Default)]
pub struct RawB {
    /// BID.
    pub id: u32,
    /// BRESP: 0 OKAY, 1 EXOKAY, 2 SLVERR, 3 DECERR.
    pub resp: u8,
    /// What lets a run be followed.
    pub tag: Tag,
}

/// A beat of R. (Arm IHI 0022, data read and write structure, read and write response structure.)
#[derive(Clone, Copy, Default)]
pub struct RawR {
    /// RID.
    pub id: u32,
    /// RDATA, by lanes.
    pub lanes: Lanes,
    /// RRESP, coded as BRESP is.
    pub resp: u8,
    /// RLAST: this is the last beat of its burst.
    pub last: bool,
    /// What lets a run be followed.
    pub tag: Tag,
}

/// What the five channels of one link offer in one round. A channel that offers nothing has `None`.
#[derive(Clone, Copy, Default)]
pub struct PortRound {
    /// The round, from 1.
    pub round: u64,
    /// The number of the link.
    pub link: u32,
    /// The port that the link shows.
    pub kind: PortKind,
    pub aw: Option<Seen<RawAddr>>,
    pub w: Option<Seen<WBeat>>,
    pub b: Option<Seen<RawB>>,
    pub ar: Option<Seen<RawAddr>>,
    pub r: Option<Seen<RawR>>,
}
