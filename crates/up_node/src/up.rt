//! `UpNode`, seen in clauses as its state and its takes and puts of the round.

ghost use Rattle.std.specs.Prelude.{◌≡◌, ◌<◌, ◌^◌, IfSome, IsTrue};
ghost use Rattle.std.specs.Option.{option_copied};
ghost use Rattle.axi_beats.specs.Bus.{IsBusWidth};
ghost use Rattle.node_core.specs.Acted.{opened};
ghost use Rattle.up_node.specs.UpState.{IsBurstOn, IsUp, new_up};
ghost use Rattle.up_node.specs.UpTable.{CanUp, up_table};

use crate::passing::Passing;
use crate::rows::{fitting, note_address, pass, pass_data, pass_read_data};
use crate::shape::UpShape;
use axi_beats::Addr;
use axi_link::{Link, Out};
use burst_address::legal;
use flight::Flight;
use node_core::{Step, link_at, passed};
use std::marker::{Model, Send, Sync};

/// An up converter below a link with a narrow bus and above a link with a wider one.
#[derive(Drop)]
pub struct UpNode {
    shape: UpShape,
    // The writes that lack data and the reads that lack answers, the oldest ones first.
    writes: Flight<Passing>,
    reads: Flight<Passing>,
    out: Out,
}

impl Model for UpNode {
    ghost use Rattle.node_core.specs.Acted.{Acted};
    ghost use Rattle.up_node.specs.UpState.{UpState};

    ghost Value = { Acted UpState };

    ghost use Rattle.up_node.specs.UpInside.{IsUpInside, up_view};

    ghost view = { up_view };

    ghost invariant = { IsUpInside };
}

impl UpNode {
    /// An up converter below link `upper`, whose bus has `narrow` bytes, and above link `lower`, whose bus
    /// has `wide` bytes. Both are widths of a data bus, and the lower bus is the wider one.
    pub fn new(upper: u32, lower: u32, narrow: u8, wide: u8) -> UpNode
        requires narrow { IsBusWidth narrow }
        requires wide { IsBusWidth wide }
        requires wider { narrow < wide }
        ensures { result ≡ opened (new_up (record { upper = upper; lower = lower; narrow = narrow; wide = wide })) }
    {
        UpNode {
            shape: UpShape {
                upper,
                lower,
                narrow,
                wide,
            },
            writes: Flight::new(),
            reads: Flight::new(),
            out: Out::default(),
        }
    }

    /// Whether its links are among these, and the requests that it sees are for legal bursts on the narrow
    /// bus, below 2^63.
    pub fn can_decide(&self, links: &[Link]) -> bool
        ensures { IsTrue result → CanUp links.now self.now.state }
    {
        let shape = &self.shape;
        if shape.upper as usize >= links.len() || shape.lower as usize >= links.len() {
            return false;
        }
        let above = link_at(links, shape.upper);
        can_pass(above.head_aw(), shape.narrow) && can_pass(above.head_ar(), shape.narrow)
    }

    /// Does each row of the table.
    fn act(&mut self, links: &[Link])
        requires { CanUp links.now self.old.state }
        ensures table { self.new ≡ up_table links.now self.old.state }
        ensures fact { IsUp self.new.state }
    {
        let shape = &self.shape;
        let out = &mut self.out;
        let above = link_at(links, shape.upper);
        let below = link_at(links, shape.lower);
        let aw = fitting(&self.writes, below.room_aw(), above.head_aw());
        let b = passed(above.room_b(), below.head_b());
        let ar = fitting(&self.reads, below.room_ar(), above.head_ar());
        pass(
            &mut out.aw_take,
            &mut out.aw_put,
            shape.upper,
            shape.lower,
            aw,
        );
        pass(&mut out.b_take, &mut out.b_put, shape.lower, shape.upper, b);
        pass(
            &mut out.ar_take,
            &mut out.ar_put,
            shape.upper,
            shape.lower,
            ar,
        );
        pass_data(
            &mut out.w_take,
            &mut out.w_put,
            shape,
            below.room_w(),
            above.head_w(),
            &mut self.writes,
        );
        pass_read_data(
            &mut out.r_take,
            &mut out.r_put,
            shape,
            above.room_r(),
            below.head_r(),
            &mut self.reads,
        );
        note_address(&mut self.writes, aw);
        note_address(&mut self.reads, ar);
    }
}

/// Whether the request, if there is one, is for a legal burst on the bus, below 2^63.
fn can_pass(head: Option<&Addr>, bus: u8) -> bool
    requires { IsBusWidth bus }
    ensures { IsTrue result → IfSome (option_copied head.entry) (IsBurstOn bus) }
{
    match head {
        Some(request) => request.addr < 1 << 63 && legal(request, bus).is_ok(),
        None => true,
    }
}

impl Step for UpNode {
    ghost can = { λ round links node. CanUp links node.state };

    ghost table = { λ round links node. up_table links node.state };

    ghost moves = { λ node. node.out };

    ghost fact = { λ node. IsUp node.state };

    #[tactic(auto, using(crate::proofs::TableLemmas::up_fits))]
    fn decide(&mut self, _round: u64, links: &[Link]) {
        self.act(links);
    }

    fn out(&self) -> &Out {
        &self.out
    }
}

fn crosses<T: Send + Sync>(_value: &T) {}

/// An up converter may be sent to another thread, and lent to one.
pub fn crosses_threads(up: &UpNode) {
    crosses(up);
}
