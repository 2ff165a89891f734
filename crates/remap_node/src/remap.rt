//! `RemapNode`, seen in clauses as its state and its takes and puts of the round.

ghost use Rattle.std.specs.Prelude.{◌≡◌, ◌≤◌, ◌^◌, IsTrue};
ghost use Rattle.node_core.specs.Acted.{opened};
ghost use Rattle.remap_node.specs.RemapState.{IsRemap, new_remap};
ghost use Rattle.remap_node.specs.RemapTable.{CanRemap, remap_table};

use crate::moves::{Ends, note_read_data, note_request, note_response, pass_as};
use crate::pair::IdPair;
use crate::rows::{answer_id, request_id};
use axi_link::{Link, Out};
use flight::Flight;
use node_core::{Step, link_at, passed, set_put, set_take};
use std::marker::{Model, Send, Sync};

/// A remapper between two links.
#[derive(Drop)]
pub struct RemapNode {
    // The numbers of the link above it and of the link below it, and the width of the IDs below in bits.
    upper: u32,
    lower: u32,
    width: u8,
    // The IDs of the requests that aren't answered, the oldest ones first.
    writes: Flight<IdPair>,
    reads: Flight<IdPair>,
    out: Out,
}

impl Model for RemapNode {
    ghost use Rattle.node_core.specs.Acted.{Acted};
    ghost use Rattle.remap_node.specs.RemapState.{RemapState};

    ghost Value = { Acted RemapState };

    ghost use Rattle.remap_node.specs.RemapInside.{IsRemapInside, remap_view};

    ghost view = { remap_view };

    ghost invariant = { IsRemapInside };
}

impl RemapNode {
    /// A remapper below link `upper` and above link `lower`, whose IDs have `id_width` bits, at most 16.
    pub fn new(upper: u32, lower: u32, id_width: u8) -> RemapNode
        requires { id_width ≤ 16 }
        ensures { result ≡ opened (new_remap (record { upper = upper; lower = lower; width = id_width })) }
    {
        RemapNode {
            upper,
            lower,
            width: id_width,
            writes: Flight::new(),
            reads: Flight::new(),
            out: Out::default(),
        }
    }

    /// Whether its links are among these.
    pub fn can_decide(&self, links: &[Link]) -> bool
        ensures { IsTrue result → CanRemap links.now self.now.state.shape }
    {
        (self.upper as usize) < links.len() && (self.lower as usize) < links.len()
    }

    /// Does each row of the table.
    fn act(&mut self, links: &[Link])
        requires { CanRemap links.now self.old.state.shape }
        ensures table { self.new ≡ remap_table links.now self.old.state }
        ensures fact { IsRemap self.new.state }
    {
        let down = Ends {
            from: self.upper,
            to: self.lower,
        };
        let up = Ends {
            from: self.lower,
            to: self.upper,
        };
        let ids = ids_of_width(self.width);
        let above = link_at(links, self.upper);
        let below = link_at(links, self.lower);
        let out = &mut self.out;
        let write = above.head_aw();
        let response = below.head_b();
        let read = above.head_ar();
        let read_data = below.head_r();
        let aw = request_id(&self.writes, ids, below.room_aw(), write);
        let w = passed(below.room_w(), above.head_w());
        let b = answer_id(&self.writes, above.room_b(), response);
        let ar = request_id(&self.reads, ids, below.room_ar(), read);
        let r = answer_id(&self.reads, above.room_r(), read_data);
        pass_as(&mut out.aw_take, &mut out.aw_put, down, aw, write);
        set_take(&mut out.w_take, down.from, w.is_some());
        set_put(&mut out.w_put, down.to, w);
        pass_as(&mut out.b_take, &mut out.b_put, up, b, response);
        pass_as(&mut out.ar_take, &mut out.ar_put, down, ar, read);
        pass_as(&mut out.r_take, &mut out.r_put, up, r, read_data);
        note_response(&mut self.writes, b, response);
        note_request(&mut self.writes, aw, write);
        note_read_data(&mut self.reads, r, read_data);
        note_request(&mut self.reads, ar, read);
    }
}

/// How many IDs of this width there are; it is at most 16 bits.
fn ids_of_width(width: u8) -> u32
    requires { width ≤ 16 }
    ensures { result ≡ 2 ^ width }
{
    1 << width
}

impl Step for RemapNode {
    ghost can = { λ round links node. CanRemap links node.state.shape };

    ghost table = { λ round links node. remap_table links node.state };

    ghost moves = { λ node. node.out };

    ghost fact = { λ node. IsRemap node.state };

    #[tactic(auto, using(crate::proofs::TableLemmas::remap_fits))]
    fn decide(&mut self, _round: u64, links: &[Link]) {
        self.act(links);
    }

    fn out(&self) -> &Out {
        &self.out
    }
}

fn crosses<T: Send + Sync>(_value: &T) {}

/// A remapper may be sent to another thread, and lent to one.
pub fn crosses_threads(remap: &RemapNode) {
    crosses(remap);
}
