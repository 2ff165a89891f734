//! `SliceNode`, seen in clauses as its two links and its takes and puts of the round.

ghost use Rattle.std.specs.Prelude.{◌≡◌, IsTrue, true};
ghost use Rattle.node_core.specs.Acted.{opened};
ghost use Rattle.slice_node.specs.SliceState.{new_slice};
ghost use Rattle.slice_node.specs.SliceTable.{CanSlice, slice_table};

use axi_link::{Link, Out};
use node_core::{Step, link_at, passed, set_put, set_take};
use std::marker::{Model, Send, Sync};

/// A slice between two links.
#[derive(Drop)]
pub struct SliceNode {
    // The numbers of the link above it and of the link below it.
    upper: u32,
    lower: u32,
    out: Out,
}

impl Model for SliceNode {
    ghost use Rattle.node_core.specs.Acted.{Acted};
    ghost use Rattle.slice_node.specs.SliceState.{SliceState};

    ghost Value = { Acted SliceState };

    ghost use Rattle.slice_node.specs.SliceInside.{slice_view};

    ghost view = { slice_view };
}

impl SliceNode {
    /// A slice below link `upper` and above link `lower`.
    pub fn new(upper: u32, lower: u32) -> SliceNode
        ensures { result ≡ opened (new_slice upper lower) }
    {
        SliceNode {
            upper,
            lower,
            out: Out::default(),
        }
    }

    /// Whether its links are among these.
    pub fn can_decide(&self, links: &[Link]) -> bool
        ensures { IsTrue result → CanSlice links.now self.now.state }
    {
        (self.upper as usize) < links.len() && (self.lower as usize) < links.len()
    }

    /// Does each row of the table.
    fn act(&mut self, links: &[Link])
        requires { CanSlice links.now self.old.state }
        ensures { self.new ≡ slice_table links.now self.old.state }
    {
        let (upper, lower) = (self.upper, self.lower);
        let above = link_at(links, upper);
        let below = link_at(links, lower);
        let aw = passed(below.room_aw(), above.head_aw());
        set_take(&mut self.out.aw_take, upper, aw.is_some());
        set_put(&mut self.out.aw_put, lower, aw);
        let w = passed(below.room_w(), above.head_w());
        set_take(&mut self.out.w_take, upper, w.is_some());
        set_put(&mut self.out.w_put, lower, w);
        let b = passed(above.room_b(), below.head_b());
        set_take(&mut self.out.b_take, lower, b.is_some());
        set_put(&mut self.out.b_put, upper, b);
        let ar = passed(below.room_ar(), above.head_ar());
        set_take(&mut self.out.ar_take, upper, ar.is_some());
        set_put(&mut self.out.ar_put, lower, ar);
        let r = passed(above.room_r(), below.head_r());
        set_take(&mut self.out.r_take, lower, r.is_some());
        set_put(&mut self.out.r_put, upper, r);
    }
}

impl Step for SliceNode {
    ghost can = { λ round links node. CanSlice links node.state };

    ghost table = { λ round links node. slice_table links node.state };

    ghost moves = { λ node. node.out };

    ghost fact = { λ node. Unit {0} };

    #[tactic(auto, using(crate::proofs::TableLemmas::slice_fits))]
    fn decide(&mut self, _round: u64, links: &[Link]) {
        self.act(links);
    }

    fn out(&self) -> &Out {
        &self.out
    }
}

fn crosses<T: Send + Sync>(_value: &T) {}

/// A slice may be sent to another thread, and lent to one.
pub fn crosses_threads(slice: &SliceNode) {
    crosses(slice);
}
