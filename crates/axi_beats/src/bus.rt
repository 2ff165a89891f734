//! The width of a data bus.

ghost use Rattle.std.specs.Prelude.{◌≡◌};
ghost use Rattle.axi_beats.specs.Bus.{is_bus_width};

/// Whether a data bus may be `bus` bytes wide, which is 4, 8, 16, 32, 64 or 128. The standard has 8 to
/// 1024 bits; buses of 1 and 2 bytes aren't among the widths here. (Arm IHI 0022, channel definition.)
pub fn is_bus_width(bus: u8) -> bool
    ensures { result ≡ is_bus_width bus }
{
    bus == 4 || bus == 8 || bus == 16 || bus == 32 || bus == 64 || bus == 128
}
