//! Whether a link offers a beat.

ghost use Rattle.std.specs.Prelude.{◌≡◌};
ghost use Rattle.net_steps.specs.Offers.{offers_beat};

use axi_link::Link;

/// Whether some channel of a link offers a beat (Arm IHI 0022, handshake process).
pub fn offers_beat(link: &Link) -> bool
    ensures { result ≡ offers_beat link.now }
{
    link.head_aw().is_some()
        || link.head_w().is_some()
        || link.head_b().is_some()
        || link.head_ar().is_some()
        || link.head_r().is_some()
}
