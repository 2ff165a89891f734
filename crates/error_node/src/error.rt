//! `ErrorNode`, seen in clauses as its state and its takes and puts of the round.

ghost use Rattle.std.specs.Prelude.{◌≡◌, IsTrue, true};
ghost use Rattle.error_node.specs.ErrorState.{IsError, new_error};
ghost use Rattle.error_node.specs.ErrorTable.{CanError, error_table};
ghost use Rattle.node_core.specs.Acted.{opened};

use crate::rows::{put_r, take_w};
use axi_link::{Link, Out};
use flight::Flight;
use node_core::{Paces, Step, link_at};
use std::marker::{Model, Send, Sync};
use subordinate::{ReadEntry, WriteEntry, put_b, take_ar, take_aw, wanted};

/// An error subordinate at the lower end of a link.
#[derive(Drop)]
pub struct ErrorNode {
    // The number of the link above it.
    upper: u32,
    paces: Paces,
    // The requests that are taken and not answered, the oldest ones first.
    writes: Flight<WriteEntry>,
    reads: Flight<ReadEntry>,
    out: Out,
}

impl Model for ErrorNode {
    ghost use Rattle.error_node.specs.ErrorState.{ErrorState};
    ghost use Rattle.node_core.specs.Acted.{Acted};

    ghost Value = { Acted ErrorState };

    ghost use Rattle.error_node.specs.ErrorInside.{error_view, IsErrorInside};

    ghost view = { error_view };

    ghost invariant = { IsErrorInside };
}

impl ErrorNode {
    /// An error subordinate below link `upper` that nothing has asked yet.
    pub fn new(upper: u32) -> ErrorNode
        ensures { result ≡ opened (new_error upper) }
    {
        ErrorNode {
            upper,
            paces: Paces::new(&[0], &[0]),
            writes: Flight::new(),
            reads: Flight::new(),
            out: Out::default(),
        }
    }

    /// Whether its link is among these.
    pub fn can_decide(&self, links: &[Link]) -> bool
        ensures { IsTrue result → CanError links.now self.now.state }
    {
        (self.upper as usize) < links.len()
    }

    /// Does each row of the table.
    fn act(&mut self, links: &[Link])
        requires { CanError links.now self.old.state }
        ensures table { self.new ≡ error_table links.now self.old.state }
        ensures fact { IsError self.new.state }
    {
        let number = self.upper;
        let link = link_at(links, number);
        let rows = self.paces.ask(&wanted(link, &self.writes, &self.reads));
        put_b(&mut self.out.b_put, number, rows.b, &mut self.writes);
        put_r(&mut self.out.r_put, number, rows.r, &mut self.reads);
        take_w(
            &mut self.out.w_take,
            number,
            rows.w,
            link.head_w(),
            &mut self.writes,
        );
        take_aw(
            &mut self.out.aw_take,
            number,
            rows.aw,
            link.head_aw(),
            &mut self.writes,
        );
        take_ar(
            &mut self.out.ar_take,
            number,
            rows.ar,
            link.head_ar(),
            &mut self.reads,
        );
    }
}

impl Step for ErrorNode {
    ghost can = { λ round links node. CanError links node.state };

    ghost table = { λ round links node. error_table links node.state };

    ghost moves = { λ node. node.out };

    ghost fact = { λ node. IsError node.state };

    #[tactic(auto, using(crate::proofs::TableLemmas::error_fits))]
    fn decide(&mut self, _round: u64, links: &[Link]) {
        self.act(links);
    }

    fn out(&self) -> &Out {
        &self.out
    }
}

fn crosses<T: Send + Sync>(_value: &T) {}

/// An error subordinate may be sent to another thread, and lent to one.
pub fn crosses_threads(error: &ErrorNode) {
    crosses(error);
}
