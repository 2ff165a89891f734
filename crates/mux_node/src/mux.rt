//! `MuxNode`, seen in clauses as its state and its takes and puts of the round.

ghost use Rattle.std.specs.Prelude.{◌≡◌, ◌<◌, ◌≤◌, IsTrue, length};
ghost use Rattle.node_core.specs.Acted.{opened};
ghost use Rattle.mux_node.specs.MuxState.{IsMux, new_mux};
ghost use Rattle.mux_node.specs.MuxTable.{CanMux, mux_table};

use crate::rows::{
    Direction, first_granted, join, leave, pass_address, pass_data, pass_read_data, pass_response,
    picked, takes_write, turn_to,
};
use crate::shape::Shape;
use arrayvec::ArrayVec;
use axi_link::{Link, Out};
use node_core::{Step, Turn};
use std::marker::{Model, Send, Sync};

/// A mux below several links, its inputs, and above one.
#[derive(Drop)]
pub struct MuxNode {
    shape: Shape,
    // Whose turn it is among the inputs that offer write addresses, and among those that offer read
    // addresses.
    turn_aw: Turn,
    turn_ar: Turn,
    // The inputs of the writes that went below and lack data, oldest first.
    granted: ArrayVec<u8, 16>,
    out: Out,
}

impl Model for MuxNode {
    ghost use Rattle.node_core.specs.Acted.{Acted};
    ghost use Rattle.mux_node.specs.MuxState.{MuxState};

    ghost Value = { Acted MuxState };

    ghost use Rattle.mux_node.specs.MuxInside.{IsMuxInside, mux_view};

    ghost view = { mux_view };

    ghost invariant = { IsMuxInside };
}

impl MuxNode {
    /// A mux below the links `upper`, its inputs from 0 on, 1 to 16 of them, and above link `lower`. The
    /// IDs of its inputs have at most `id_width` bits, 0 to 16.
    pub fn new(upper: &[u32], lower: u32, id_width: u8) -> MuxNode
        requires some { 0 < length upper.now }
        requires most { length upper.now ≤ 16 }
        requires narrow { id_width ≤ 16 }
        ensures { result ≡ opened (new_mux (record { uppers = upper.now; lower = lower; width = id_width })) }
    {
        let shape = Shape::new(upper, lower, id_width);
        let inputs = shape.inputs();
        MuxNode {
            shape,
            turn_aw: Turn::new(inputs),
            turn_ar: Turn::new(inputs),
            granted: ArrayVec::new(),
            out: Out::default(),
        }
    }

    /// Whether its links are among these, and the addresses on them have narrow IDs.
    pub fn can_decide(&self, links: &[Link]) -> bool
        ensures { IsTrue result → CanMux links.now self.now.state.shape }
    {
        self.shape.fits_on(links)
    }

    /// Does each row of the table.
    fn act(&mut self, links: &[Link])
        requires { CanMux links.now self.old.state.shape }
        ensures table { self.new ≡ mux_table links.now self.old.state }
        ensures fact { IsMux self.new.state }
    {
        let shape = &self.shape;
        let out = &mut self.out;
        let below = shape.below(links);
        let may_write = takes_write(below, &self.granted);
        let write = picked(links, shape, Direction::Write, may_write, &self.turn_aw);
        let read = picked(
            links,
            shape,
            Direction::Read,
            below.room_ar(),
            &self.turn_ar,
        );
        let first = first_granted(&self.granted);
        pass_response(&mut out.b_take, &mut out.b_put, links, shape);
        pass_read_data(&mut out.r_take, &mut out.r_put, links, shape);
        let ends = pass_data(&mut out.w_take, &mut out.w_put, links, shape, first);
        pass_address(
            &mut out.aw_take,
            &mut out.aw_put,
            links,
            shape,
            Direction::Write,
            write,
        );
        pass_address(
            &mut out.ar_take,
            &mut out.ar_put,
            links,
            shape,
            Direction::Read,
            read,
        );
        leave(&mut self.granted, ends);
        join(&mut self.granted, write);
        turn_to(&mut self.turn_aw, write);
        turn_to(&mut self.turn_ar, read);
    }
}

impl Step for MuxNode {
    ghost can = { λ round links node. CanMux links node.state.shape };

    ghost table = { λ round links node. mux_table links node.state };

    ghost moves = { λ node. node.out };

    ghost fact = { λ node. IsMux node.state };

    #[tactic(auto, using(crate::proofs::TableLemmas::mux_fits))]
    fn decide(&mut self, _round: u64, links: &[Link]) {
        self.act(links);
    }

    fn out(&self) -> &Out {
        &self.out
    }
}

fn crosses<T: Send + Sync>(_value: &T) {}

/// A mux may be sent to another thread, and lent to one.
pub fn crosses_threads(mux: &MuxNode) {
    crosses(mux);
}
