//! The turns of the oblivious schedule.

ghost use Rattle.std.specs.Prelude.{◌≡◌, ◌≤◌, length};
ghost use Rattle.bhs_time.specs.TimedRuns.{delivery_in};
ghost use Rattle.bhs_match.specs.Matches.{state_of};
ghost use Rattle.bhs_deliveries.specs.Links.{held_in};
ghost use Rattle.bhs_deliveries.specs.Drawing.{delivered_to, delivery_of, IsPlayedIf};
ghost use Rattle.bhs_deliveries.specs.Dealer.{moved_on};
ghost use Rattle.bhs_deliveries.specs.Delaying.{schedule_by, departed_in, drawn_in};

use crate::dealers::Dealer;
use crate::draws::Drawn;
use crate::held::Held;
use bhs_match::Match;
use bhs_model::Event;
use bhs_state::Standing;
use bhs_time::Delays;

/// What the oblivious schedule knows of a match besides its words.
#[derive(Drop)]
pub struct Waits<'a> {
    /// The law of the tournament's delays.
    pub delays: Delays,
    /// How many turns have passed.
    pub turn: u32,
    /// Of each agent, after how many turns it took its newest step that was not on a link.
    pub departed: &'a [u32],
}

/// Plays the delivery of an agent, unless the match has ended or the agent's link is held. Takes no memory.
pub fn deliver(game: &mut Match, held: &Held, agent: u16) -> Drawn
    ensures drawn { result ≡ delivered_to (held_in held.now) (state_of game.old) agent }
    ensures played { IsPlayedIf game.old (delivery_of (held_in held.now) (state_of game.old) agent) game.new }
{
    if game.closed() {
        return Drawn::Nobody;
    }
    let Standing::Away { node, port } = game.standing(agent) else {
        game.apply(Event::Deliver { agent });
        return Drawn::Nobody;
    };
    if held.has(node, port) {
        return Drawn::Stays;
    }
    game.apply(Event::Deliver { agent });
    Drawn::Delivered { agent }
}

/// Takes a turn of the oblivious schedule: plays at most one delivery, that of the agent that the dealer's next word
/// picks among all agents, if it has been on its link for its delay and the link is not held. Takes no memory.
pub fn draw_oblivious(game: &mut Match, held: &Held, dealer: &mut Dealer, waits: &Waits) -> Drawn
    requires { game.old.setup.agents ≤ length waits.now.departed.now }

    ensures drawn { result
        ≡ drawn_in (held_in held.now) (schedule_by dealer.old game.old.setup.agents waits.now.delays)
        (state_of game.old) (departed_in waits.now.departed.now) waits.now.turn }

    // The match changes by the event that the definitions give, or is unchanged if they give none.
    ensures played { IsPlayedIf game.old
        (delivery_in (held_in held.now) (schedule_by dealer.old game.old.setup.agents waits.now.delays)
        (state_of game.old) (departed_in waits.now.departed.now) waits.now.turn) game.new }
    ensures dealer { dealer.new ≡ moved_on dealer.old }
{
    let delays = waits.delays;
    let agents = game.setup().agents;
    let agent = (dealer.next() % u32::from(agents)) as u16;
    let departed = waits.departed[usize::from(agent)];
    let delay = delays.by_word(dealer.delay_word(agent, departed));
    if waits.turn < departed || waits.turn - departed < delay {
        return Drawn::Nobody;
    }
    deliver(game, held, agent)
}
