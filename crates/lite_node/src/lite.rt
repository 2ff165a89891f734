//! `LiteNode`, seen in clauses as its state and its takes and puts of the round.

ghost use Rattle.std.specs.Prelude.{◌≡◌, IsTrue};
ghost use Rattle.axi_beats.specs.Bus.{IsBusWidth};
ghost use Rattle.node_core.specs.Acted.{opened};
ghost use Rattle.lite_node.specs.LiteState.{IsLite, new_lite};
ghost use Rattle.lite_node.specs.LiteTable.{CanLite, lite_table};

use crate::rows::{can_pass, join, leave, pass_address, pass_read_data, pass_response};
use arrayvec::ArrayVec;
use axi_link::{Link, Out};
use node_core::{Step, link_at, passed, set_put, set_take};
use std::marker::{Model, Send, Sync};

/// A Lite bridge below an AXI4 link and above an AXI4-Lite link.
#[derive(Drop)]
pub struct LiteNode {
    // The numbers of the link above it and of the link below it.
    upper: u32,
    lower: u32,
    // The width of the bus of both, in bytes.
    bus: u8,
    // The IDs of the requests that aren't answered, the oldest ones first.
    writes: ArrayVec<u32, 16>,
    reads: ArrayVec<u32, 16>,
    out: Out,
}

impl Model for LiteNode {
    ghost use Rattle.node_core.specs.Acted.{Acted};
    ghost use Rattle.lite_node.specs.LiteState.{LiteState};

    ghost Value = { Acted LiteState };

    ghost use Rattle.lite_node.specs.LiteInside.{IsLiteInside, lite_view};

    ghost view = { lite_view };

    ghost invariant = { IsLiteInside };
}

impl LiteNode {
    /// A bridge below link `upper` and above link `lower`, both on a bus of `bus` bytes: on AXI4-Lite 4 or
    /// 8, and 16 to 128 do as well.
    pub fn new(upper: u32, lower: u32, bus: u8) -> LiteNode
        requires { IsBusWidth bus }
        ensures { result ≡ opened (new_lite (record { upper = upper; lower = lower; bus = bus })) }
    {
        LiteNode {
            upper,
            lower,
            bus,
            writes: ArrayVec::new(),
            reads: ArrayVec::new(),
            out: Out::default(),
        }
    }

    /// Whether its links are among these, and the link above offers requests for legal bursts below 2^63
    /// alone.
    pub fn can_decide(&self, links: &[Link]) -> bool
        ensures { IsTrue result → CanLite links.now self.now.state.shape }
    {
        if self.upper as usize >= links.len() || self.lower as usize >= links.len() {
            return false;
        }
        let above = link_at(links, self.upper);
        can_pass(above.head_aw(), self.bus) && can_pass(above.head_ar(), self.bus)
    }

    /// Does each row of the table.
    fn act(&mut self, links: &[Link])
        requires { CanLite links.now self.old.state.shape }
        ensures table { self.new ≡ lite_table links.now self.old.state }
        ensures fact { IsLite self.new.state }
    {
        let (upper, lower, bus) = (self.upper, self.lower, self.bus);
        let above = link_at(links, upper);
        let below = link_at(links, lower);
        let out = &mut self.out;
        let aw = passed(below.room_aw() && self.writes.len() < 16, above.head_aw());
        pass_address(&mut out.aw_take, &mut out.aw_put, upper, lower, bus, aw);
        let ar = passed(below.room_ar() && self.reads.len() < 16, above.head_ar());
        pass_address(&mut out.ar_take, &mut out.ar_put, upper, lower, bus, ar);
        let w = passed(below.room_w(), above.head_w());
        set_take(&mut out.w_take, upper, w.is_some());
        set_put(&mut out.w_put, lower, w);
        let b = passed(above.room_b(), below.head_b());
        let answered = pass_response(
            &mut out.b_take,
            &mut out.b_put,
            lower,
            upper,
            &self.writes,
            b,
        );
        let r = passed(above.room_r(), below.head_r());
        let read = pass_read_data(
            &mut out.r_take,
            &mut out.r_put,
            lower,
            upper,
            &self.reads,
            r,
        );
        leave(&mut self.writes, answered);
        join(&mut self.writes, aw);
        leave(&mut self.reads, read);
        join(&mut self.reads, ar);
    }
}

impl Step for LiteNode {
    ghost can = { λ round links node. CanLite links node.state.shape };

    ghost table = { λ round links node. lite_table links node.state };

    ghost moves = { λ node. node.out };

    ghost fact = { λ node. IsLite node.state };

    #[tactic(auto, using(crate::proofs::TableLemmas::lite_fits))]
    fn decide(&mut self, _round: u64, links: &[Link]) {
        self.act(links);
    }

    fn out(&self) -> &Out {
        &self.out
    }
}

fn crosses<T: Send + Sync>(_value: &T) {}

/// A bridge may be sent to another thread, and lent to one.
pub fn crosses_threads(lite: &LiteNode) {
    crosses(lite);
}
