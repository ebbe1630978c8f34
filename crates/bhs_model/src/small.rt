//! The matches of the earlier versions of files and replays.

ghost use Rattle.std.specs.Prelude.{◌≡◌};
ghost use Rattle.bhs_model.specs.Small.{is_small};

use crate::limits::{SMALL_BOARD, SMALL_NODES, SMALL_QUOTA};
use crate::setups::Setup;
use bhs_net::Net;

/// Whether the files and replays of the earlier versions can say a match on this network, set up so.
pub fn is_small(net: &Net, setup: &Setup) -> bool
    ensures { result ≡ is_small net.now setup.now }
{
    net.nodes() <= SMALL_NODES && setup.quota <= SMALL_QUOTA && setup.board <= SMALL_BOARD
}
