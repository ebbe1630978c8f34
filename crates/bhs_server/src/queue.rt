//! Waiting clients, and the choice of the one to cut off. Playing clients are stored elsewhere, and entering clients
//! are safe.

ghost use Rattle.std.specs.Prelude.{◌≡◌, map};
ghost use Rattle.bhs_server.specs.Waiting.{older, waits};

use crate::origins::Origin;

// After how many looks a client that has not entered is cut off. There are two looks a second.
const LOOKS: u32 = 20;

/// Where a client stands whose agent has not entered.
#[derive(Clone, Copy, Debug, PartialEq, Eq)]
pub(crate) enum Stand {
    /// Its first line is still to come.
    Waits,
    /// Its first line is being read, and it is not cut off meanwhile.
    Enters,
    /// The client is cut off; its session will end soon.
    IsCut,
}

/// What is known of a client whose agent has not entered.
#[derive(Clone, Copy, Debug)]
pub(crate) struct Known {
    pub(crate) session: u32,
    pub(crate) origin: Origin,
    pub(crate) stand: Stand,
    /// Whether the client occupies the room reserved for its address, from which an agent has entered before.
    pub(crate) has_room: bool,
    /// How many looks it has waited to be let in.
    pub(crate) looks: u32,
}

impl Known {
    /// Returns whether the client waits to be admitted.
    pub(crate) fn waits(&self) -> bool
        ensures { result ≡ waits self.now }
    {
        match self.stand {
            Stand::Waits => true,
            _ => false,
        }
    }

    // The client after a look: who has waited too long is cut off.
    fn older(self) -> Known
        ensures { result ≡ older self }
    {
        if !self.waits() {
            return self;
        }
        let looks = self.looks.saturating_add(1);
        let stand = if looks >= LOOKS {
            Stand::IsCut
        } else {
            Stand::Waits
        };
        Known {
            session: self.session,
            origin: self.origin,
            stand,
            has_room: self.has_room,
            looks,
        }
    }
}

/// Records a look: cuts off exactly the clients that have waited too long to be admitted.
pub(crate) fn grow_older(clients: &mut [Known])
    ensures { clients.new ≡ map older clients.old }
{
    for place in 0..clients.len() {
        clients[place] = clients[place].older();
    }
}
