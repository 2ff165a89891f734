//! The map from addresses to ports. A clause sees it as the list of its regions in the order in which
//! they were given.
ghost use Rattle.std.specs.Prelude.{◌≡◌, ◌<◌, ◌^◌, List, false, length, position, IfNone, IfOk, IfErr, IsOk};
ghost use Rattle.std.specs.List.{list_any};
ghost use Rattle.address_map.specs.Maps.{IsFaultOf, IsMappable};
ghost use Rattle.address_map.specs.Regions.{is_bad_region, serving_port};
ghost use Rattle.address_map.specs.declared.region.Region.{Region};

use crate::overlap::overlap;
use crate::region::Region;
use std::alloc::{AllocError, Global};
use std::marker::Model;
use thiserror::Error;

/// Why regions make no map. Regions are numbered from 0.
#[derive(Clone, Copy, Debug, Drop, Error, PartialEq, Eq)]
pub enum MapFault {
    /// The first region that is bad: it has no address, its base or size is no multiple of 4096, or it
    /// ends above 2^63.
    #[error("region {0} is empty, isn't made of whole pages, or ends above 2^63")]
    BadRegion(u32),
    /// The least pair of regions that share an address. No region is bad.
    #[error("regions {0} and {1} share an address")]
    Overlap(u32, u32),
    /// Memory was wanting. This is no fault of the regions.
    #[error("out of memory")]
    NoMemory,
}

/// Regions of which no two share an address. Regions may touch.
#[derive(Debug, Drop)]
pub struct AddressMap {
    regions: Vec<Region>,
}

impl Model for AddressMap {
    ghost Value = { List Region };

    ghost view = { λ map. map.regions.items };
}

impl AddressMap {
    /// The map of fewer than 2^32 regions.
    ///
    /// # Errors
    ///
    /// The first region that is bad, else the least pair of regions that share an address, or that
    /// there was no memory.
    pub fn new(alloc: Global, regions: Vec<Region>) -> Result<AddressMap, MapFault>
        requires { length regions.items < 2 ^ 32 }
        ensures regions { IfOk result (λ map. map ≡ regions.items) }
        ensures mappable { IsOk result → IsMappable regions.items }
        ensures fault { IfErr result (IsFaultOf regions.items) }
    {
        if let Some(number) = first_bad(&regions) {
            return Err(MapFault::BadRegion(number));
        }
        match overlap(alloc, &regions).map_err(|_| MapFault::NoMemory)? {
            Some((first, second)) => Err(MapFault::Overlap(first, second)),
            None => Ok(AddressMap { regions }),
        }
    }

    /// The port of the region that has the address, or `None` where none has it.
    #[tactic(auto, using(crate::proofs::RegionLemmas::found_from))]
    pub fn find(&self, addr: u64) -> Option<u32>
        ensures { result ≡ serving_port self.now addr }
    {
        for region in &self.regions {
            if region.holds(addr) {
                return Some(region.port);
            }
        }
        None
    }
}

/// The number of the first region that is bad.
fn first_bad(regions: &[Region]) -> Option<u32>
    requires { length regions.now < 2 ^ 32 }
    ensures first { result ≡ position is_bad_region regions.now }
    ensures none { IfNone result (list_any is_bad_region regions.now ≡ false) }
{
    for (number, region) in regions.iter().enumerate() {
        if region.is_bad() {
            return Some(number as u32);
        }
    }
    None
}
