//! What holds of regions and their addresses.
ghost use Rattle.address_map.specs.Laws.{ApartIsAtMostOne, OverlapIsOfTwo, PortIsOfHolder, PageHasOnePort};

/// The laws of regions. Each is told in plain words in `specs/Laws.antt`.
pub fn laws()
    // Regions that share no address.
    ensures apart { ApartIsAtMostOne }
    ensures pair { OverlapIsOfTwo }

    // The port of an address.
    ensures holder { PortIsOfHolder }
    ensures page { PageHasOnePort }
{}
