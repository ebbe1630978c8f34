//! Chooses which waiting client to cut off: from the network with most waiting clients, within it from the most crowded
//! address. A flood therefore makes room for others, never the reverse.

ghost use Rattle.std.specs.Prelude.{◌≡◌};
ghost use Rattle.bhs_server.specs.Crowds.{crowd_of, crowd_with, denser, first_cut, goes, is_at, is_greater, is_near};
ghost use Rattle.bhs_server.specs.Crowds.{one_more_if, may_go};

use crate::origins::Origin;
use crate::queue::Known;

// How many looks a client of the greatest crowd waits before a newer one gets its room.
const PATIENCE: u32 = 2;

/// How many clients wait in a network, and how many of them at an address.
#[derive(Clone, Copy, Debug, PartialEq, Eq)]
pub(crate) struct Crowd {
    pub(crate) network: u32,
    pub(crate) address: u32,
}

/// The largest crowd, with the places of its first and last clients in the list.
#[derive(Clone, Copy, Debug)]
pub(crate) struct Densest {
    pub(crate) crowd: Crowd,
    pub(crate) first: usize,
    /// How many looks the first has waited.
    pub(crate) looks: u32,
    pub(crate) last: usize,
}

impl Known {
    // Returns whether the client waits in the network of this address.
    fn is_near(&self, origin: Origin) -> bool
        ensures { result ≡ is_near self.now origin }
    {
        self.waits() && self.origin.network == origin.network
    }

    // Returns whether the client waits at this address.
    fn is_at(&self, origin: Origin) -> bool
        ensures { result ≡ is_at self.now origin }
    {
        self.is_near(origin) && self.origin.place == origin.place
    }

    // Returns whether the client may be cut off: it waits, and does not occupy the room reserved for its address.
    fn may_go(&self) -> bool
        ensures { result ≡ may_go self.now }
    {
        self.waits() && !self.has_room
    }
}

// Adds 1 to a count if the condition holds.
fn one_more_if(count: u32, is_so: bool) -> u32
    ensures { result ≡ one_more_if count is_so }
{
    if is_so {
        count.saturating_add(1)
    } else {
        count
    }
}

impl Crowd {
    // The crowd at an address with one client more, if it waits there.
    fn with(self, client: &Known, origin: Origin) -> Crowd
        ensures { result ≡ crowd_with self client.now origin }
    {
        Crowd {
            network: one_more_if(self.network, client.is_near(origin)),
            address: one_more_if(self.address, client.is_at(origin)),
        }
    }

    // Whether it is greater than another: more wait in the network, or as many and more at the address.
    fn is_greater(self, other: Crowd) -> bool
        ensures { result ≡ is_greater self other }
    {
        self.network > other.network
            || (self.network == other.network && self.address > other.address)
    }
}

// The crowd at an address.
fn crowd_of(clients: &[Known], origin: Origin) -> Crowd
    ensures { result ≡ crowd_of clients.now origin }
{
    let mut crowd = Crowd {
        network: 0,
        address: 0,
    };
    for place in 0..clients.len() {
        crowd = crowd.with(&clients[place], origin);
    }
    crowd
}

// The greatest crowd once a client is known that may go, which waits in this crowd and came after all others.
fn denser(found: Option<Densest>, place: usize, client: &Known, crowd: Crowd) -> Option<Densest>
    ensures { result ≡ denser found place client.now crowd }
{
    let alone = Densest {
        crowd,
        first: place,
        looks: client.looks,
        last: place,
    };
    let Some(found) = found else {
        return Some(alone);
    };
    if crowd.is_greater(found.crowd) {
        return Some(alone);
    }
    if found.crowd.is_greater(crowd) {
        return Some(found);
    }
    Some(Densest {
        crowd: found.crowd,
        first: found.first,
        looks: found.looks,
        last: place,
    })
}

impl Densest {
    // Who is cut off: who has waited longest, if that was some time, and otherwise who came last.
    fn goes(self) -> usize
        ensures { result ≡ goes self }
    {
        if self.looks >= PATIENCE {
            self.first
        } else {
            self.last
        }
    }
}

/// Returns the place of the client to cut off first, if any may be cut off.
pub(crate) fn first_cut(clients: &[Known]) -> Option<usize>
    ensures { result ≡ first_cut clients.now }
{
    let mut found: Option<Densest> = None;
    for place in 0..clients.len() {
        let client = clients[place];
        if client.may_go() {
            found = denser(found, place, &client, crowd_of(clients, client.origin));
        }
    }
    match found {
        Some(found) => Some(found.goes()),
        None => None,
    }
}
