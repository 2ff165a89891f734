//! One beat of each channel, with the fields that the standard names. (Arm IHI 0022, channel signals.)
//! The data lanes stand last in a beat, so that its small fields lie together.

ghost use Rattle.std.specs.Prelude.{◌≡◌};
ghost use Rattle.axi_beats.specs.Codes.{burst_code, burst_of_code};

use crate::lanes::Lanes;
use crate::response::Resp;

/// How the address moves from beat to beat of a burst. (Arm IHI 0022, burst type.)
#[derive(Clone, Copy, Debug, PartialEq, Eq, Default)]
pub enum Burst {
    /// Every beat is at the start address.
    #[default]
    Fixed,
    /// Each beat is one beat size above the one before.
    Incr,
    /// As `Incr`, but at its upper boundary the burst goes back to its lower one.
    Wrap,
}

impl Burst {
    /// AxBURST of this kind: 0 FIXED, 1 INCR, 2 WRAP. (Arm IHI 0022, burst type.)
    pub fn code(self) -> u8
        ensures { result ≡ burst_code self }
    {
        match self {
            Burst::Fixed => 0,
            Burst::Incr => 1,
            Burst::Wrap => 2,
        }
    }

    /// The kind with this code on AxBURST. Code 3 is reserved, so it has none.
    pub fn from_code(code: u8) -> Option<Burst>
        ensures { result ≡ burst_of_code code }
    {
        match code {
            0 => Some(Burst::Fixed),
            1 => Some(Burst::Incr),
            2 => Some(Burst::Wrap),
            _ => None,
        }
    }
}

/// What a beat carries beside the standard's fields, so that a run can be followed: the number of
/// its transaction and, on an AXI4-Lite link, the lowest and the highest lane that is wanted.
/// No node decides by it.
#[derive(Clone, Copy, Debug, PartialEq, Eq, Default)]
pub struct Tag {
    /// The number of the transaction.
    pub txn: u32,
    /// The lowest lane that is wanted; of no meaning on an AXI4 link.
    pub low: u8,
    /// The highest lane that is wanted; of no meaning on an AXI4 link.
    pub high: u8,
}

/// A beat of AW or AR: the request for a burst of `len + 1` beats of `2 ^ size` bytes. It may be a
/// request for a burst that isn't legal. (Arm IHI 0022, address structure.)
#[derive(Clone, Copy, Debug, PartialEq, Eq, Default)]
pub struct Addr {
    /// AxID.
    pub id: u32,
    /// AxADDR, the byte address at which the burst starts.
    pub addr: u64,
    /// AxLEN, one less than the number of beats.
    pub len: u8,
    /// AxSIZE, the exponent of the bytes of a beat; at most 7 in a legal burst.
    pub size: u8,
    /// AxBURST.
    pub burst: Burst,
    /// What lets a run be followed.
    pub tag: Tag,
}

/// A beat of W. Which transaction it belongs to is told by its place alone, since it has no ID.
/// (Arm IHI 0022, write strobes.)
#[derive(Clone, Copy, Default)]
pub struct WBeat {
    /// WSTRB: lane n is written where bit n is 1.
    pub strobe: u128,
    /// WLAST: this is the last beat of its burst.
    pub last: bool,
    /// What lets a run be followed.
    pub tag: Tag,
    /// WDATA, by lanes.
    pub lanes: Lanes,
}

/// A beat of B: the one answer to a write. (Arm IHI 0022, read and write response structure.)
#[derive(Clone, Copy, Debug, PartialEq, Eq, Default)]
pub struct BBeat {
    /// BID, the ID of the write.
    pub id: u32,
    /// BRESP.
    pub resp: Resp,
    /// What lets a run be followed.
    pub tag: Tag,
}

/// A beat of R: one beat of the answer to a read, which has a response of its own. (Arm IHI 0022,
/// data read and write structure, read and write response structure.)
#[derive(Clone, Copy, Default)]
pub struct RBeat {
    /// RID, the ID of the read.
    pub id: u32,
    /// RRESP.
    pub resp: Resp,
    /// RLAST: this is the last beat of its burst.
    pub last: bool,
    /// What lets a run be followed.
    pub tag: Tag,
    /// RDATA, by lanes.
    pub lanes: Lanes,
}
