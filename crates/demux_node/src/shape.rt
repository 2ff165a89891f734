//! `Shape`, what of a demux never changes.

ghost use Rattle.std.specs.Prelude.{◌≡◌, ◌<◌, ◌≤◌, All, IfSome, IsTrue, length};
ghost use Rattle.std.specs.Option.{option_map_or};
ghost use Rattle.axi_link.specs.LinkWords.{link_of};
ghost use Rattle.address_map.specs.declared.region.Region.{Region};
ghost use Rattle.demux_node.specs.DemuxState.{DemuxShape, lower_of, port_for};
ghost use Rattle.demux_node.specs.DemuxTable.{CanDemux, at_port};

use address_map::AddressMap;
use arrayvec::ArrayVec;
use axi_link::Link;
use node_core::link_at;
use std::marker::Model;

/// The links of a demux and its map of addresses.
#[derive(Drop)]
pub(crate) struct Shape {
    // The number of the link above it.
    upper: u32,
    // The numbers of the links below it, by port.
    lowers: ArrayVec<u32, 17>,
    map: AddressMap,
}

impl Model for Shape {
    ghost use Rattle.demux_node.specs.DemuxState.{DemuxShape};

    ghost Value = { DemuxShape };

    ghost use Rattle.demux_node.specs.DemuxInside.{IsDemuxShapeInside, demux_shape_view};

    ghost view = { demux_shape_view };

    ghost invariant = { IsDemuxShapeInside };
}

impl Shape {
    /// The shape of a demux below link `upper` and above 1 to 17 links, of which each region of the map
    /// has one as its port.
    pub(crate) fn new(upper: u32, lower: &[u32], map: AddressMap) -> Shape
        requires some { 0 < length lower.now }
        requires most { length lower.now ≤ 17 }
        requires regions { All (λ (region : Region). region.port < length lower.now) map }
        ensures { result ≡ record { upper = upper; lowers = lower.now; regions = map } }
    {
        let mut lowers = ArrayVec::new();
        for link in lower {
            lowers.push(*link);
        }
        Shape { upper, lowers, map }
    }

    /// How many ports there are, 1 to 17.
    pub(crate) fn ports(&self) -> u8
        ensures count { result ≡ length self.now.lowers }
        ensures some { 0 < result }
        ensures most { result ≤ 17 }
    {
        self.lowers.len() as u8
    }

    /// The port of an address.
    pub(crate) fn port_for(&self, address: u64) -> u8
        ensures port { result ≡ port_for self.now address }
        ensures within { result < length self.now.lowers }
    {
        match self.map.find(address) {
            Some(port) => port as u8,
            None => self.lowers.len() as u8 - 1,
        }
    }

    /// The number of the link above.
    pub(crate) fn upper(&self) -> u32
        ensures { result ≡ self.now.upper }
    {
        self.upper
    }

    /// The number of the link of a port, and 0 without one.
    pub(crate) fn lower_by(&self, port: Option<u8>) -> u32
        requires { IfSome port (λ p. p < length self.now.lowers) }
        ensures { result ≡ option_map_or (lower_of self.now) port 0 }
    {
        match port {
            Some(port) => self.lower(port),
            None => 0,
        }
    }

    /// The number of the link of a port.
    fn lower(&self, port: u8) -> u32
        requires { port < length self.now.lowers }
        ensures { result ≡ lower_of self.now port }
    {
        self.lowers.as_slice()[usize::from(port)]
    }

    /// The link above.
    pub(crate) fn above<'a>(&self, links: &'a [Link]) -> &'a Link
        requires { CanDemux links.now self.now }
        ensures { result.now ≡ link_of links.now self.now.upper }
    {
        link_at(links, self.upper)
    }

    /// The link of a port.
    pub(crate) fn at<'a>(&self, links: &'a [Link], port: u8) -> &'a Link
        requires can { CanDemux links.now self.now }
        requires port { port < length self.now.lowers }
        ensures { result.now ≡ at_port links.now self.now port }
    {
        link_at(links, self.lowers.as_slice()[usize::from(port)])
    }

    /// Whether all links are among these.
    pub(crate) fn fits_on(&self, links: &[Link]) -> bool
        ensures { IsTrue result → CanDemux links.now self.now }
    {
        for lower in self.lowers.as_slice() {
            if !is_there(links, *lower) {
                return false;
            }
        }
        is_there(links, self.upper)
    }
}

/// Whether a link is there.
fn is_there(links: &[Link], number: u32) -> bool
    ensures { IsTrue result → number < length links.now }
{
    (number as usize) < links.len()
}
