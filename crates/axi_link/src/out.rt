//! What one node does in one round.

use axi_beats::{Addr, BBeat, RBeat, WBeat};

/// The beats that a node takes and puts in a round, at most one of each a channel. The numbers are
/// links: `w_take` of `Some(3)` takes the head of link 3's W queue, `w_put` of `Some((4, beat))`
/// appends `beat` to link 4's. A node above a link takes B and R and puts AW, W and AR there; a node
/// below does the reverse. (Arm IHI 0022, handshake process.)
#[derive(Clone, Copy, Default)]
pub struct Out {
    pub aw_take: Option<u32>,
    pub aw_put: Option<(u32, Addr)>,
    pub w_take: Option<u32>,
    pub w_put: Option<(u32, WBeat)>,
    pub b_take: Option<u32>,
    pub b_put: Option<(u32, BBeat)>,
    pub ar_take: Option<u32>,
    pub ar_put: Option<(u32, Addr)>,
    pub r_take: Option<u32>,
    pub r_put: Option<(u32, RBeat)>,
}
