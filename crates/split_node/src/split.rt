//! `SplitNode`, seen in clauses as its state and its takes and puts of the round.

ghost use Rattle.std.specs.Prelude.{◌≡◌, IsTrue};
ghost use Rattle.node_core.specs.Acted.{opened};
ghost use Rattle.split_node.specs.SplitState.{IsSplit, new_split};
ghost use Rattle.split_node.specs.SplitTable.{CanSplit, split_table};

use crate::burst::{InWork, SplitEntry};
use crate::rows::{can_be_cut, note_request, put_data, put_part, put_read_data, put_response};
use axi_link::{Link, Out};
use flight::Flight;
use node_core::{Step, link_at, passed, set_take};
use std::marker::{Model, Send, Sync};

/// A burst splitter between two links.
#[derive(Drop)]
pub struct SplitNode {
    // The numbers of the link above it and of the link below it.
    upper: u32,
    lower: u32,
    // The bursts of which some parts, but not all, have gone on.
    write_work: Option<InWork>,
    read_work: Option<InWork>,
    // The bursts that aren't wholly answered, the oldest ones first.
    writes: Flight<SplitEntry>,
    reads: Flight<SplitEntry>,
    out: Out,
}

impl Model for SplitNode {
    ghost use Rattle.node_core.specs.Acted.{Acted};
    ghost use Rattle.split_node.specs.SplitState.{SplitState};

    ghost Value = { Acted SplitState };

    ghost use Rattle.split_node.specs.SplitInside.{IsSplitInside, split_view};

    ghost view = { split_view };

    ghost invariant = { IsSplitInside };
}

impl SplitNode {
    /// A splitter below link `upper` and above link `lower`.
    pub fn new(upper: u32, lower: u32) -> SplitNode
        ensures { result ≡ opened (new_split upper lower) }
    {
        SplitNode {
            upper,
            lower,
            write_work: None,
            read_work: None,
            writes: Flight::new(),
            reads: Flight::new(),
            out: Out::default(),
        }
    }

    /// Whether its links are among these, and the link above offers requests that can be cut alone: for
    /// bursts that are legal on the widest bus and start below 2^63.
    pub fn can_decide(&self, links: &[Link]) -> bool
        ensures { IsTrue result → CanSplit links.now self.now.state }
    {
        if self.upper as usize >= links.len() || self.lower as usize >= links.len() {
            return false;
        }
        let above = link_at(links, self.upper);
        can_be_cut(above.head_aw()) && can_be_cut(above.head_ar())
    }

    /// Does each row of the table.
    fn act(&mut self, links: &[Link])
        requires { CanSplit links.now self.old.state }
        ensures table { self.new ≡ split_table links.now self.old.state }
        ensures fact { IsSplit self.new.state }
    {
        let (upper, lower) = (self.upper, self.lower);
        let out = &mut self.out;
        let above = link_at(links, upper);
        let below = link_at(links, lower);
        let more_writes = self.writes.len() < 16;
        let more_reads = self.reads.len() < 16;
        let b = put_response(
            &mut out.b_put,
            upper,
            &mut self.writes,
            below.head_b(),
            above.room_b(),
        );
        set_take(&mut out.b_take, lower, b.is_some());
        let r = put_read_data(
            &mut out.r_put,
            upper,
            &mut self.reads,
            below.head_r(),
            above.room_r(),
        );
        set_take(&mut out.r_take, lower, r.is_some());
        let w = passed(below.room_w(), above.head_w());
        set_take(&mut out.w_take, upper, w.is_some());
        put_data(&mut out.w_put, lower, w);
        let aw = put_part(
            &mut out.aw_put,
            lower,
            &mut self.write_work,
            above.head_aw(),
            below.room_aw(),
            more_writes,
        );
        set_take(&mut out.aw_take, upper, aw.is_some());
        note_request(&mut self.writes, aw);
        let ar = put_part(
            &mut out.ar_put,
            lower,
            &mut self.read_work,
            above.head_ar(),
            below.room_ar(),
            more_reads,
        );
        set_take(&mut out.ar_take, upper, ar.is_some());
        note_request(&mut self.reads, ar);
    }
}

impl Step for SplitNode {
    ghost can = { λ round links node. CanSplit links node.state };

    ghost table = { λ round links node. split_table links node.state };

    ghost moves = { λ node. node.out };

    ghost fact = { λ node. IsSplit node.state };

    #[tactic(auto, using(crate::proofs::TableLemmas::split_fits))]
    fn decide(&mut self, _round: u64, links: &[Link]) {
        self.act(links);
    }

    fn out(&self) -> &Out {
        &self.out
    }
}

fn crosses<T: Send + Sync>(_value: &T) {}

/// A splitter may be sent to another thread, and lent to one.
pub fn crosses_threads(splitter: &SplitNode) {
    crosses(splitter);
}
