//! Maps whose faults and ports are known.
ghost use Rattle.std.specs.Prelude.{◌<◌, ◌^◌, length};

use crate::{AddressMap, MapFault, Region, are_apart, laws};
use std::alloc::Global;
use std::process::Abort;

const PAGE: u64 = 4096;

fn region(base: u64, size: u64, port: u32) -> Region {
    Region { base, size, port }
}

/// The map of these regions, or why there is none.
fn map_of(rt: &impl Abort, alloc: Global, regions: &[Region]) -> Result<AddressMap, MapFault> {
    let regions = Vec::from_slice(alloc, regions).expect(rt, "memory");
    assert!(rt; regions.len() < 100);
    AddressMap::new(alloc, regions)
}

#[test]
fn finds_the_port_of_an_address(rt: HostRuntime) {
    laws();
    let regions = [
        region(2 * PAGE, PAGE, 7),
        region(0, PAGE, 3),
        region(PAGE, PAGE, 0),
    ];
    let map = map_of(&rt, rt.alloc(), &regions).expect(&rt, "the regions touch and don't overlap");
    for (address, port) in [
        (0, Some(3)),
        (4095, Some(3)),
        (4096, Some(0)),
        (8191, Some(0)),
        (8192, Some(7)),
        (12287, Some(7)),
        (12288, None),
        (u64::MAX, None),
    ] {
        assert_eq!(rt; map.find(address), port, "{address}");
    }
}

#[test]
fn tells_why_there_is_no_map(rt: HostRuntime) {
    let first = region(0, PAGE, 0);
    let second = region(PAGE, PAGE, 1);
    let wide = region(PAGE, 2 * PAGE, 2);
    let last = region((1 << 63) - PAGE, PAGE, 3);
    for (regions, want) in [
        ([first, second, wide], MapFault::Overlap(1, 2)),
        ([wide, last, second], MapFault::Overlap(0, 2)),
        ([region(1, PAGE, 0), first, first], MapFault::BadRegion(0)),
        ([first, first, region(0, 0, 0)], MapFault::BadRegion(2)),
        ([last, region(0, 2048, 0), first], MapFault::BadRegion(1)),
        (
            [last, first, region(1 << 63, PAGE, 0)],
            MapFault::BadRegion(2),
        ),
    ] {
        assert_eq!(rt; map_of(&rt, rt.alloc(), &regions).err(), Some(want));
    }
}

#[test]
fn asks_regions_alone(rt: HostRuntime) {
    let one = region(PAGE, PAGE, 0);
    let other = region(0, PAGE, 0);
    assert!(rt; one.holds(PAGE));
    assert!(rt; !one.shares(&other));
    assert!(rt; !one.is_bad());
    assert!(rt; !other.is_bad());
    let apart = are_apart(rt.alloc(), &[one, other]).expect(&rt, "memory");
    assert!(rt; apart);
}
