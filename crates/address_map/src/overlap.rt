//! Which regions of a list share an address.
ghost use Rattle.std.specs.Prelude.{◌≡◌, ◌<◌, ◌^◌, IfOk, IfSome, IfNone, false, not, length, position};
ghost use Rattle.std.specs.List.{list_any};
ghost use Rattle.address_map.specs.Order.{follows};
ghost use Rattle.address_map.specs.Regions.{has_overlap, is_bad_region, share_address, IsLeastOverlap};

use crate::region::Region;
use std::alloc::{AllocError, Global};

/// Whether no two of the regions share an address. None of them is bad. The time is that of a sort, so
/// that this may be asked of any number of regions.
///
/// # Errors
///
/// There was no memory for a sorted copy.
pub fn are_apart(alloc: Global, regions: &[Region]) -> Result<bool, AllocError>
    requires good { list_any is_bad_region regions.now ≡ false }
    ensures { IfOk result (λ apart. apart ≡ not (has_overlap regions.now)) }
{
    let mut sorted = Vec::from_slice(alloc, regions)?;
    sorted.sort_by_key(|region| region.base)?;
    Ok(follow_each_other(&sorted))
}

/// Whether each region but the first begins at or above the end of the one before it.
#[tactic(auto, using(crate::proofs::RegionLemmas::follows_from))]
fn follow_each_other(sorted: &[Region]) -> bool
    requires good { list_any is_bad_region sorted.now ≡ false }
    ensures { result ≡ follows 0 sorted.now }
{
    let mut end = 0;
    for region in sorted {
        if region.base < end {
            return false;
        }
        end = region.base + region.size;
    }
    true
}

/// The least pair of regions that share an address, by their numbers from 0, or `None` where no two do.
/// None of them is bad. Only where there is such a pair it is looked for pair by pair.
pub(crate) fn overlap(alloc: Global, regions: &[Region]) -> Result<Option<(u32, u32)>, AllocError>
    requires few { length regions.now < 2 ^ 32 }
    requires good { list_any is_bad_region regions.now ≡ false }
    ensures pair { IfOk result (λ found. IfSome found (λ pair. IsLeastOverlap regions.now pair.0 pair.1)) }
    ensures apart { IfOk result (λ found. IfNone found (has_overlap regions.now ≡ false)) }
{
    if are_apart(alloc, regions)? {
        Ok(None)
    } else {
        Ok(least_overlap(regions))
    }
}

/// The least pair of regions that share an address: the first that has a later partner, and its first
/// partner.
fn least_overlap(regions: &[Region]) -> Option<(u32, u32)>
    requires few { length regions.now < 2 ^ 32 }
    ensures pair { IfSome result (λ pair. IsLeastOverlap regions.now pair.0 pair.1) }
    ensures apart { IfNone result (has_overlap regions.now ≡ false) }
{
    for (first, region) in regions.iter().enumerate() {
        if let Some(gap) = partner(region, &regions[first + 1..]) {
            return Some((first as u32, (first + 1 + gap) as u32));
        }
    }
    None
}

/// The place of the first of these regions that shares an address with the given one.
fn partner(region: &Region, others: &[Region]) -> Option<usize>
    ensures { result ≡ position (share_address region.now) others.now }
{
    for (place, other) in others.iter().enumerate() {
        if region.shares(other) {
            return Some(place);
        }
    }
    None
}
