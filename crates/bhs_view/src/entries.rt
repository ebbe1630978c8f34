//! What a log says at a place.

ghost use Rattle.std.specs.Prelude.{◌≡◌, ◌<◌, None, length, slice_index_or};
ghost use Rattle.bhs_view.specs.Reading.{IsRead};

use bhs_match::{Sealed, Site};
use bhs_model::{Kept, Setup};
use bhs_net::Net;

/// Queries about a match that has ended.
pub(crate) struct Reading<'m> {
    pub(crate) net: &'m Net,
    pub(crate) setup: &'m Setup,
    pub(crate) log: &'m [Kept],
    pub(crate) sites: &'m [Site],
}

/// Looks up a match that has ended.
pub(crate) fn read(sealed: &Sealed) -> Reading<'_>
    ensures { IsRead sealed.now result.net.now result.setup.now result.log.now result.sites.now }
{
    let net = sealed.net();
    // The proof needs how many nodes a network may have.
    let _nodes = net.nodes();
    Reading {
        net,
        setup: sealed.setup(),
        log: sealed.log(),
        sites: sealed.sites(),
    }
}

/// The site of a place.
pub(crate) fn site_at(sites: &[Site], place: usize) -> Option<u16>
    requires { place < length sites.now }
    ensures { result ≡ slice_index_or sites.now place None }
{
    sites[place].node()
}
