//! Which connection plays each agent.

ghost use Rattle.std.specs.Prelude.{◌≡◌, ◌<◌, ◌==◌, ℕ, length, replicate, Some, None, [], IfOk, OnOk, OnErr};
ghost use Rattle.std.specs.Prelude.{if◌then◌else◌, slice_index_or};
ghost use Rattle.bhs_rehearsal.specs.Holders.{held_at, same_seat};

use bhs_net::Memory;
use std::alloc::Global;
use std::marker::Model;

// By match and agent the number of the connection that plays the agent. Contracts see a row for each match.
#[derive(Drop)]
pub(crate) struct Holders {
    rows: Vec<Vec<Option<u16>>>,
}

impl Model for Holders {
    ghost use Rattle.std.specs.Prelude.{ℕ, List, Option, map};

    ghost Value = { List (List (Option ℕ)) };

    ghost view = { λ holders. map (λ row. row.items) holders.rows.items };
}

impl Holders {
    // Nobody plays in this number of matches.
    pub(crate) fn new(alloc: Global, games: usize) -> Result<Holders, Memory>
        ensures { IfOk result (λ holders. holders ≡ replicate games []) }
    {
        let mut rows = Vec::with_capacity(alloc, games)?;
        for _ in 0..games {
            rows.push(Vec::new(alloc))?;
        }
        Ok(Holders { rows })
    }

    // The connection that plays this agent of this match.
    pub(crate) fn holder(&self, seat: (u32, u16)) -> Option<u16>
        ensures { result ≡ held_at self.now seat }
    {
        let row = self.rows.get(seat.0 as usize)?;
        let holder = row.get(usize::from(seat.1))?;
        *holder
    }

    // From now on this connection plays this agent of this match. An `Err` changes nothing.
    pub(crate) fn seat(&mut self, seat: (u32, u16), conn: u16) -> Result<(), Memory>
        requires { seat.0 < length self.old }
        ensures ok { OnOk result ((other : ℕ × ℕ) → held_at self.new other
            ≡ (if same_seat seat other then Some conn else held_at self.old other)) }
        ensures err { OnErr result (self.new ≡ self.old) }
        ensures games { length self.new ≡ length self.old }
    {
        let row = &mut self.rows[seat.0 as usize];
        seat_in(row, seat.1, conn)
    }
}

// From now on this connection plays the agent of this number. An `Err` changes nothing.
fn seat_in(row: &mut Vec<Option<u16>>, agent: u16, conn: u16) -> Result<(), Memory>
    ensures ok { OnOk result ((other : ℕ) → slice_index_or row.new.items other None
        ≡ (if agent == other then Some conn else slice_index_or row.old.items other None)) }
    ensures err { OnErr result (row.new.items ≡ row.old.items) }
{
    let agent = usize::from(agent);
    if row.len() <= agent {
        row.resize(agent + 1, None)?;
    }
    row[agent] = Some(conn);
    Ok(())
}
