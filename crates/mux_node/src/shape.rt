//! `Shape`, what of a mux never changes.

ghost use Rattle.std.specs.Prelude.{◌≡◌, ◌<◌, ◌≤◌, ◌/◌, IfSome, IsTrue, Some, length, nat_lt, option_copied};
ghost use Rattle.axi_link.specs.LinkWords.{head_of, link_of};
ghost use Rattle.node_core.specs.Rows.{beat_where};
ghost use Rattle.mux_node.specs.MuxTable.{CanMux, ids_of, upper_of};

use arrayvec::ArrayVec;
use axi_beats::Addr;
use axi_link::Link;
use node_core::link_at;
use std::marker::Model;

/// The links of a mux and the width of its inputs' IDs.
#[derive(Drop)]
pub(crate) struct Shape {
    // The numbers of the links above it, by input.
    uppers: ArrayVec<u32, 16>,
    // The number of the link below it.
    lower: u32,
    // In bits.
    width: u8,
}

impl Model for Shape {
    ghost use Rattle.mux_node.specs.MuxState.{MuxShape};

    ghost Value = { MuxShape };

    ghost use Rattle.mux_node.specs.MuxInside.{IsMuxShapeInside, mux_shape_view};

    ghost view = { mux_shape_view };

    ghost invariant = { IsMuxShapeInside };
}

impl Shape {
    /// The shape of a mux below 1 to 16 links, whose IDs have at most this width, and above link
    /// `lower`.
    pub(crate) fn new(upper: &[u32], lower: u32, width: u8) -> Shape
        requires some { 0 < length upper.now }
        requires most { length upper.now ≤ 16 }
        requires narrow { width ≤ 16 }
        ensures { result ≡ record { uppers = upper.now; lower = lower; width = width } }
    {
        let mut uppers = ArrayVec::new();
        for link in upper {
            uppers.push(*link);
        }
        Shape {
            uppers,
            lower,
            width,
        }
    }

    /// How many inputs there are, 1 to 16.
    pub(crate) fn inputs(&self) -> u8
        ensures count { result ≡ length self.now.uppers }
        ensures some { 0 < result }
        ensures most { result ≤ 16 }
    {
        self.uppers.len() as u8
    }

    /// How many IDs an input has.
    pub(crate) fn ids(&self) -> u32
        ensures count { result ≡ ids_of self.now }
        ensures some { 0 < result }
        ensures most { result ≤ 65536 }
    {
        1 << self.width
    }

    /// The number of the link below.
    pub(crate) fn lower(&self) -> u32
        ensures { result ≡ self.now.lower }
    {
        self.lower
    }

    /// The number of the link of an input.
    pub(crate) fn upper(&self, input: u8) -> u32
        requires { input < length self.now.uppers }
        ensures { result ≡ upper_of self.now input }
    {
        self.uppers.as_slice()[usize::from(input)]
    }

    /// The input in an ID, where there is one.
    pub(crate) fn input_in(&self, id: u32) -> Option<u8>
        ensures input { result ≡ beat_where (nat_lt (id / ids_of self.now) (length self.now.uppers)) (Some (id / ids_of self.now)) }
        ensures within { IfSome result (λ input. input < length self.now.uppers) }
    {
        let input = id / self.ids();
        if (input as usize) < self.uppers.len() {
            Some(input as u8)
        } else {
            None
        }
    }

    /// The link of an input.
    pub(crate) fn above<'a>(&self, links: &'a [Link], input: u8) -> &'a Link
        requires can { CanMux links.now self.now }
        requires input { input < length self.now.uppers }
        ensures { result.now ≡ link_of links.now (upper_of self.now input) }
    {
        link_at(links, self.uppers.as_slice()[usize::from(input)])
    }

    /// The link below.
    pub(crate) fn below<'a>(&self, links: &'a [Link]) -> &'a Link
        requires { CanMux links.now self.now }
        ensures { result.now ≡ link_of links.now self.now.lower }
    {
        link_at(links, self.lower)
    }

    /// Whether all links are among these, and the addresses that inputs offer have narrow IDs.
    pub(crate) fn fits_on(&self, links: &[Link]) -> bool
        ensures { IsTrue result → CanMux links.now self.now }
    {
        for upper in self.uppers.as_slice() {
            if !is_narrow(links, *upper, self.ids()) {
                return false;
            }
        }
        (self.lower as usize) < links.len()
    }
}

/// Whether a link is there, and offers addresses with IDs below this bound alone.
fn is_narrow(links: &[Link], number: u32, bound: u32) -> bool
    ensures within { IsTrue result → number < length links.now }
    ensures aw { IsTrue result → IfSome (head_of (link_of links.now number).aw) (λ a. a.id < bound) }
    ensures ar { IsTrue result → IfSome (head_of (link_of links.now number).ar) (λ a. a.id < bound) }
{
    (number as usize) < links.len()
        && has_narrow_id(link_at(links, number).head_aw(), bound)
        && has_narrow_id(link_at(links, number).head_ar(), bound)
}

fn has_narrow_id(head: Option<&Addr>, bound: u32) -> bool
    ensures { IsTrue result → IfSome (option_copied head.entry) (λ a. a.id < bound) }
{
    match head {
        Some(address) => address.id < bound,
        None => true,
    }
}
