//! Properties of an accused link, which is named by a node and a port.

ghost use Rattle.std.specs.Prelude.{◌≡◌};
ghost use Rattle.bhs_model.specs.Setups.{world_of};
ghost use Rattle.bhs_referee.specs.Verdicts.{is_same_link, is_over_dark, is_right};

use bhs_model::Setup;
use bhs_net::Net;

/// Whether two ends are of one link.
pub(crate) fn is_same_link(net: &Net, setup: &Setup, link: (u16, u16), end: (u16, u16)) -> bool
    ensures { result ≡ is_same_link (world_of net.now setup.now) link end }
{
    end == link || net.far_end(end) == link
}

/// Whether a link, named by a node and a port, is dark.
pub fn is_dark(net: &Net, setup: &Setup, link: (u16, u16)) -> bool
    ensures { result ≡ is_over_dark (world_of net.now setup.now) link }
{
    setup
        .dark
        .ends()
        .iter()
        .any(|end| is_same_link(net, setup, link, *end))
}

/// Whether a link leads to a black hole or is dark.
pub(crate) fn is_right(net: &Net, setup: &Setup, link: (u16, u16)) -> bool
    ensures { result ≡ is_right (world_of net.now setup.now) link }
{
    setup.holes.contains(net.far_end(link).0) || is_dark(net, setup, link)
}
