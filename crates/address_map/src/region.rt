//! A region of addresses.
ghost use Rattle.std.specs.Prelude.{◌≡◌};
ghost use Rattle.address_map.specs.Regions.{is_bad_region, has_address, share_address};

/// The addresses from `base` on, `size` of them, and the port by which they are reached.
#[derive(Clone, Copy, Debug, Default, PartialEq, Eq)]
pub struct Region {
    /// The lowest address.
    pub base: u64,
    /// The number of addresses, in bytes.
    pub size: u64,
    /// The port's number.
    pub port: u32,
}

impl Region {
    /// Whether the region is bad: it has no address, its base or its size is no multiple of 4096, or
    /// it ends above 2^63.
    pub fn is_bad(&self) -> bool
        ensures { result ≡ is_bad_region self.now }
    {
        const LIMIT: u64 = 1 << 63;
        self.size == 0
            || self.base % 4096 != 0
            || self.size % 4096 != 0
            || self.size > LIMIT
            || self.base > LIMIT - self.size
    }

    /// Whether the region has this address. It may end anywhere.
    pub fn holds(&self, address: u64) -> bool
        ensures { result ≡ has_address self.now address }
    {
        address >= self.base && address - self.base < self.size
    }

    /// Whether some address is in both regions. They may end anywhere.
    pub fn shares(&self, other: &Region) -> bool
        ensures { result ≡ share_address self.now other.now }
    {
        if self.base <= other.base {
            other.size > 0 && other.base - self.base < self.size
        } else {
            self.size > 0 && self.base - other.base < other.size
        }
    }
}
