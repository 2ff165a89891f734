//! `DemuxNode`, seen in clauses as its state and its takes and puts of the round.

ghost use Rattle.std.specs.Prelude.{◌≡◌, ◌<◌, ◌≤◌, All, IsTrue, length};
ghost use Rattle.address_map.specs.declared.region.Region.{Region};
ghost use Rattle.node_core.specs.Acted.{opened};
ghost use Rattle.demux_node.specs.DemuxState.{IsDemux, new_demux};
ghost use Rattle.demux_node.specs.DemuxTable.{CanDemux, demux_table};

use crate::moves::{
    note_data, note_read, note_read_data, note_response, note_write, pass_address, pass_data,
    pass_read_data, pass_response, turn_to,
};
use crate::route::{Route, WriteRoute};
use crate::rows::{ar_port, aw_port, b_port, offered_b, offered_r, r_port, w_port};
use crate::shape::Shape;
use address_map::AddressMap;
use axi_link::{Link, Out};
use flight::Flight;
use node_core::{Step, Turn};
use std::marker::{Model, Send, Sync};

/// A demux below one link and above several, its ports.
#[derive(Drop)]
pub struct DemuxNode {
    shape: Shape,
    // The requests that aren't answered, the oldest ones first.
    writes: Flight<WriteRoute>,
    reads: Flight<Route>,
    // Whose turn it is among the ports that offer responses, and among those that offer read data.
    turn_b: Turn,
    turn_r: Turn,
    out: Out,
}

impl Model for DemuxNode {
    ghost use Rattle.node_core.specs.Acted.{Acted};
    ghost use Rattle.demux_node.specs.DemuxState.{DemuxState};

    ghost Value = { Acted DemuxState };

    ghost use Rattle.demux_node.specs.DemuxInside.{IsDemuxInside, demux_view};

    ghost view = { demux_view };

    ghost invariant = { IsDemuxInside };
}

impl DemuxNode {
    /// A demux below link `upper` and above the links `lower`, its ports from 0 on, 1 to 17 of them. An
    /// address goes to the port of its region, and to the last port where none has it; each region has
    /// one of the ports.
    pub fn new(upper: u32, lower: &[u32], map: AddressMap) -> DemuxNode
        requires some { 0 < length lower.now }
        requires most { length lower.now ≤ 17 }
        requires regions { All (λ (region : Region). region.port < length lower.now) map }
        ensures { result ≡ opened (new_demux (record { upper = upper; lowers = lower.now; regions = map })) }
    {
        let shape = Shape::new(upper, lower, map);
        let ports = shape.ports();
        DemuxNode {
            shape,
            writes: Flight::new(),
            reads: Flight::new(),
            turn_b: Turn::new(ports),
            turn_r: Turn::new(ports),
            out: Out::default(),
        }
    }

    /// Whether its links are among these.
    pub fn can_decide(&self, links: &[Link]) -> bool
        ensures { IsTrue result → CanDemux links.now self.now.state.shape }
    {
        self.shape.fits_on(links)
    }

    /// Does each row of the table.
    fn act(&mut self, links: &[Link])
        requires { CanDemux links.now self.old.state.shape }
        ensures table { self.new ≡ demux_table links.now self.old.state }
        ensures fact { IsDemux self.new.state }
    {
        let shape = &self.shape;
        let out = &mut self.out;
        let above = shape.above(links);
        let aw = aw_port(links, shape, &self.writes);
        let w = w_port(links, shape, &self.writes);
        let b = b_port(links, shape, &self.writes, &self.turn_b);
        let ar = ar_port(links, shape, &self.reads);
        let r = r_port(links, shape, &self.reads, &self.turn_r);
        let response = offered_b(links, shape, b);
        let read_data = offered_r(links, shape, r);
        pass_address(
            &mut out.aw_take,
            &mut out.aw_put,
            shape,
            aw,
            above.head_aw(),
        );
        pass_data(&mut out.w_take, &mut out.w_put, shape, w, above.head_w());
        pass_response(&mut out.b_take, &mut out.b_put, shape, b, response);
        pass_address(
            &mut out.ar_take,
            &mut out.ar_put,
            shape,
            ar,
            above.head_ar(),
        );
        pass_read_data(&mut out.r_take, &mut out.r_put, shape, r, read_data);
        note_data(&mut self.writes, w, above.head_w());
        note_response(&mut self.writes, b, response);
        note_write(&mut self.writes, aw, above.head_aw());
        note_read_data(&mut self.reads, r, read_data);
        note_read(&mut self.reads, ar, above.head_ar());
        turn_to(&mut self.turn_b, b, response);
        turn_to(&mut self.turn_r, r, read_data);
    }
}

impl Step for DemuxNode {
    ghost can = { λ round links node. CanDemux links node.state.shape };

    ghost table = { λ round links node. demux_table links node.state };

    ghost moves = { λ node. node.out };

    ghost fact = { λ node. IsDemux node.state };

    #[tactic(auto, using(crate::proofs::TableLemmas::demux_fits))]
    fn decide(&mut self, _round: u64, links: &[Link]) {
        self.act(links);
    }

    fn out(&self) -> &Out {
        &self.out
    }
}

fn crosses<T: Send + Sync>(_value: &T) {}

/// A demux may be sent to another thread, and lent to one.
pub fn crosses_threads(demux: &DemuxNode) {
    crosses(demux);
}
