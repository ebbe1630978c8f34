//! What the first line of a connection comes to.

ghost use Rattle.std.specs.Prelude.{◌≡◌, ◌<◌, length, IfOk};
ghost use Rattle.std.specs.List.{list_any};
ghost use Rattle.bhs_rehearsal.specs.Stages.{Stage, connection_at, entry, entry_by, let_in, has_seat};
ghost use Rattle.bhs_rehearsal.specs.Takings.{seen_entry};

use crate::connections::Connection;
use crate::items::Item;
use bhs_net::Memory;
use bhs_session::key_in;
use bhs_setups::Keys;
use bhs_wire::{Denial, First, LineReader};

// What the first item of a connection that was not let in comes to.
#[derive(Clone, Copy)]
pub(crate) enum EntryResult {
    // There is none.
    Waits,
    // It is let in, to play this agent of this match.
    Sits((u32, u16)),
    // It is denied.
    Denied(Denial),
    // Its input has ended.
    Goes,
}

// What the first item of a connection comes to, with this number of matches.
pub(crate) fn first_entry(
    line_reader: &mut LineReader,
    games: usize,
    keys: &Keys,
    connections: &[Connection<'_>],
    conn: usize,
) -> Result<EntryResult, Memory>
    requires { conn < length connections.now }
    ensures { (stage : Stage) → length stage.games ≡ games → stage.keys ≡ keys.now → stage.connections ≡ connections.now
        → IfOk result (λ found. seen_entry found ≡ entry stage (connection_at stage conn).queue) }
{
    match connections[conn].first() {
        None => Ok(EntryResult::Waits),
        Some(Item::Ends) => Ok(EntryResult::Goes),
        Some(Item::Says(line)) => {
            let first = line.said(line_reader)?;
            Ok(entry_by(games, keys, connections, first))
        }
    }
}

// What the first line comes to.
fn entry_by(games: usize, keys: &Keys, connections: &[Connection<'_>], first: First) -> EntryResult
    ensures { (stage : Stage) → length stage.games ≡ games → stage.keys ≡ keys.now → stage.connections ≡ connections.now
        → seen_entry result ≡ entry_by stage first }
{
    match key_in(first) {
        Ok(key) => let_in(games, connections, keys.find(key.as_str())),
        Err(denial) => EntryResult::Denied(denial),
    }
}

// Whom a key lets in that belongs to this seat.
fn let_in(games: usize, connections: &[Connection<'_>], seat: Option<(u32, u16)>) -> EntryResult
    ensures { (stage : Stage) → length stage.games ≡ games → stage.connections ≡ connections.now
        → seen_entry result ≡ let_in stage seat }
{
    let Some(seat) = seat else {
        return EntryResult::Denied(Denial::Key);
    };
    if seat.0 as usize >= games {
        EntryResult::Denied(Denial::Key)
    } else if is_taken(connections, seat) {
        EntryResult::Denied(Denial::Taken)
    } else {
        EntryResult::Sits(seat)
    }
}

fn is_taken(connections: &[Connection<'_>], seat: (u32, u16)) -> bool
    ensures { result ≡ list_any (has_seat seat) connections.now }
{
    connections
        .iter()
        .any(|connection| connection.has_seat(seat))
}
