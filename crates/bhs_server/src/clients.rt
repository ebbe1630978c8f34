//! The connected clients of a server. Waiting clients and playing clients have separate bounds, so a flood takes no
//! place from an agent: it competes only with the waiting clients of the most crowded network.

ghost use Rattle.std.specs.Prelude.{◌≡◌, map};
ghost use Rattle.bhs_server.specs.Waiting.{older};
ghost use Rattle.bhs_server.specs.Crowds.{with_room};

use crate::crowds::first_cut;
use crate::origins::Origin;
use crate::queue::{Known, Stand, grow_older};
use crate::rejections::{Rejection, reject};
use bhs_net::Memory;
use std::alloc::Global;
use std::net::{Shutdown, TcpStream};
use std::sync::Arc;

// How many clients may wait at most to be let in.
const WAITING: usize = 256;

// The maximal number of connected clients whose agents have not entered, including those that were cut off and are
// about to leave.
const OUTSIDE: usize = 512;

// A client whose agent has entered.
#[derive(Drop)]
struct EnteredClient {
    session: u32,
    socket: Arc<TcpStream, Global>,
}

/// The clients that are connected.
#[derive(Drop)]
pub(crate) struct Clients {
    /// The clients whose agents have not entered, in the order of their connections.
    known: Vec<Known>,
    /// The socket of each, at the same place.
    sockets: Vec<Arc<TcpStream, Global>>,
    /// Those whose agents have entered.
    entered: Vec<EnteredClient>,
    /// The addresses from which agents have entered.
    origins: Vec<Origin>,
    /// How many agents may have entered at most.
    most: usize,
}

impl Clients {
    /// Nobody is connected, and at most this many agents may have entered at a time.
    pub(crate) fn new(alloc: Global, most: u32) -> Result<Clients, Memory> {
        let most = most as usize;
        Ok(Clients {
            known: Vec::with_capacity(alloc, OUTSIDE)?,
            sockets: Vec::with_capacity(alloc, OUTSIDE)?,
            entered: Vec::with_capacity(alloc, most)?,
            origins: Vec::with_capacity(alloc, most)?,
            most,
        })
    }

    /// Adds a session's client. Too many waiting clients make it cut off one of them; the new client is not added if
    /// the choice falls on it.
    pub(crate) fn add(
        &mut self,
        session: u32,
        origin: Origin,
        socket: &Arc<TcpStream, Global>,
    ) -> Result<(), Rejection> {
        let Ok(kept) = Arc::try_clone(socket) else {
            return Err(Rejection::Memory);
        };
        if self.are_all_in() || self.known.len() >= OUTSIDE {
            return Err(Rejection::Full);
        }
        let client = Known {
            session,
            origin,
            stand: Stand::Waits,
            has_room: self.keeps_room(origin),
            looks: 0,
        };
        if self.known.reserve(1).is_err() || self.sockets.push(kept).is_err() {
            return Err(Rejection::Memory);
        }
        if self.known.push(client).is_err() {
            return Err(Rejection::Memory);
        }
        if self.are_too_many() {
            self.make_room();
        }
        if self.are_too_many() || !self.waits(session) {
            self.remove(session);
            return Err(Rejection::Full);
        }
        Ok(())
    }

    // Returns whether the number of agents that have entered or are entering has reached its limit.
    fn are_all_in(&self) -> bool {
        let mut all = self.entered.len();
        for client in self.known.iter() {
            if client.stand == Stand::Enters {
                all = all.saturating_add(1);
            }
        }
        all >= self.most
    }

    // Whether more clients wait to be let in than may.
    fn are_too_many(&self) -> bool {
        let mut waiting: usize = 0;
        for client in self.known.iter() {
            if client.waits() {
                waiting = waiting.saturating_add(1);
            }
        }
        waiting > WAITING
    }

    // Returns whether the room reserved for this address is free for the client: an agent has entered from the address,
    // and no other client occupies the room.
    fn keeps_room(&self, origin: Origin) -> bool {
        let is_taken = self
            .known
            .iter()
            .any(|client| client.has_room && client.origin == origin);
        !is_taken && self.origins.iter().any(|one| *one == origin)
    }

    /// Cuts off at most one client, the one that makes room for others.
    pub(crate) fn make_room(&mut self)
        ensures { self.new.known.items ≡ with_room self.old.known.items }
    {
        let Some(place) = first_cut(&self.known) else {
            return;
        };
        if place >= self.known.len() {
            return;
        }
        self.known[place].stand = Stand::IsCut;
        self.hear_no_more(place);
    }

    // Ends the input of the client at this place, so that its session ends.
    fn hear_no_more(&self, place: usize) {
        if let Some(socket) = self.sockets.get(place) {
            let _ = socket.shutdown(Shutdown::Read);
        }
    }

    /// The first line of the client of a session is still to come: whether it is not cut off.
    pub(crate) fn waits(&mut self, session: u32) -> bool {
        self.stands(session, Stand::Waits)
    }

    /// The first line of the client of a session is being read, unless it is cut off or there is no room for its agent.
    pub(crate) fn enters(&mut self, session: u32) -> Result<(), Rejection> {
        if !self.stands(session, Stand::Waits) {
            return Err(Rejection::Late);
        }
        if self.are_all_in() {
            return Err(Rejection::Full);
        }
        self.stands(session, Stand::Enters);
        Ok(())
    }

    /// The agent of the client of a session has entered.
    pub(crate) fn is_in(&mut self, session: u32) {
        let Some(place) = self.place_of(session) else {
            return;
        };
        if place >= self.known.len() || place >= self.sockets.len() {
            return;
        }
        if self.entered.reserve(1).is_err() {
            // The client's stand is `Enters`, so it is not cut off before the end.
            return;
        }
        let origin = self.known.remove(place).origin;
        let socket = self.sockets.remove(place);
        let _ = self.entered.push(EnteredClient { session, socket });
        if !self.origins.iter().any(|one| *one == origin) {
            let _ = self.origins.push(origin);
        }
    }

    // Sets the stand of a session's client. Returns false if the client was cut off.
    fn stands(&mut self, session: u32, stand: Stand) -> bool {
        for client in self.known.iter_mut() {
            if client.session == session && client.stand != Stand::IsCut {
                client.stand = stand;
                return true;
            }
        }
        false
    }

    /// Tells the client of a session that there is no memory to serve it. It is connected no more.
    pub(crate) fn reject(&mut self, session: u32) {
        if let Some(place) = self.place_of(session) {
            if let Some(socket) = self.sockets.get(place) {
                reject(socket, Rejection::Memory);
            }
        }
        self.remove(session);
    }

    /// The client of a session is connected no more.
    pub(crate) fn remove(&mut self, session: u32) {
        if let Some(place) = self.place_of(session) {
            if place < self.known.len() && place < self.sockets.len() {
                let _known = self.known.remove(place);
                let _gone = self.sockets.remove(place);
            }
        }
        self.entered.retain(|client| client.session != session);
    }

    // The place of the client of a session whose agent has not entered.
    fn place_of(&self, session: u32) -> Option<usize> {
        self.known
            .iter()
            .position(|client| client.session == session)
    }

    /// Records a look: cuts off exactly the clients that have waited too long to be admitted.
    pub(crate) fn grow_older(&mut self)
        ensures { self.new.known.items ≡ map older self.old.known.items }
    {
        grow_older(&mut self.known);
        for place in 0..self.known.len() {
            if self.known[place].stand == Stand::IsCut {
                self.hear_no_more(place);
            }
        }
    }

    /// Cuts off all.
    pub(crate) fn cut_all(&mut self) {
        for client in self.known.iter_mut() {
            client.stand = Stand::IsCut;
        }
        for socket in self.sockets.iter() {
            let _ = socket.shutdown(Shutdown::Both);
        }
        for client in self.entered.iter() {
            let _ = client.socket.shutdown(Shutdown::Both);
        }
    }
}
