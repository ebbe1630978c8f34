//! Drawing a delivery by a word.

ghost use Rattle.std.specs.Prelude.{◌≡◌};
ghost use Rattle.bhs_model.specs.Draws.{draw};
ghost use Rattle.bhs_match.specs.Matches.{state_of};
ghost use Rattle.bhs_deliveries.specs.Links.{held_in};
ghost use Rattle.bhs_deliveries.specs.Drawing.{drawn, IsPlayedIf};

use crate::held::Held;
use crate::picks::pick;
use bhs_match::Match;
use bhs_model::Event;

/// What came of a draw.
#[derive(Clone, Copy, Debug, PartialEq, Eq)]
pub enum Drawn {
    /// The match has ended, or nobody is on a link.
    Nobody,
    /// The link of the agent that was picked is held.
    Stays,
    /// The link of the agent let it arrive. Where the link is dark or leads to a black hole, this destroys the agent,
    /// which stays in the pool.
    Delivered { agent: u16 },
}

/// Plays at most one delivery: that of the agent that the word picks out of the pool. Takes no memory.
pub fn draw(game: &mut Match, held: &Held, word: u32) -> Drawn
    ensures drawn { result ≡ drawn (held_in held.now) (state_of game.old) word }

    // The match changes by the event that the definitions draw, or is unchanged if they draw none.
    ensures played { IsPlayedIf game.old (draw (held_in held.now) (state_of game.old) word) game.new }
{
    let drawn = judged(game, held, word);
    if let Drawn::Delivered { agent } = drawn {
        game.apply(Event::Deliver { agent });
    }
    drawn
}

// What the word draws.
fn judged(game: &Match, held: &Held, word: u32) -> Drawn
    ensures { result ≡ drawn (held_in held.now) (state_of game.now) word }
{
    if game.closed() {
        return Drawn::Nobody;
    }
    let pool = game.pool();
    match pick(pool, word) {
        Some(place) => {
            let bound = pool[place];
            if held.has(bound.node, bound.port) {
                Drawn::Stays
            } else {
                Drawn::Delivered { agent: bound.agent }
            }
        }
        None => Drawn::Nobody,
    }
}
