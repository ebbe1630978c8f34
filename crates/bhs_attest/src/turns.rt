//! One turn of an agent that is compared with the log of its match.

ghost use Rattle.std.specs.Prelude.{◌≡◌, IfOk};
ghost use Rattle.bhs_world.specs.Tables.{keeps_next};
ghost use Rattle.bhs_match.specs.Matches.{world_in};
ghost use Rattle.bhs_attest.specs.Turns.{Happens, IsHeard, Takes};

use bhs_agents::{AgentNews, WakeUps};
use bhs_match::Match;
use bhs_model::{Command, Event};
use bhs_net::Memory;
use bhs_schedules::Step;
use bhs_state::Standing;

/// What comes of a turn.
#[derive(Drop)]
pub(crate) enum Turn {
    /// Before the next event of the log the agent observes this, which changes nothing else.
    Idles(AgentNews),
    /// The next event has happened, and this is what the agent observes of it, if anything.
    Passes(Option<AgentNews>),
    /// The agent does not do what the next event says.
    Differs,
}

/// Takes the turn of an agent that faces the next event of the log of its match and takes this step.
pub(crate) fn take_turn(
    game: &mut Match,
    agent: u16,
    event: &Event,
    step: &Step,
    wake_ups: &WakeUps,
) -> Result<Turn, Memory>
    ensures { IfOk result (λ turn. Takes agent wake_ups.now game.old event.now step.now turn game.new) }
{
    match event {
        Event::Close => Ok(Turn::Differs),
        Event::Tell {
            agent: speaker,
            command,
        } if *speaker == agent => speak(game, agent, command, step, wake_ups),
        Event::Deliver { agent: traveller } if *traveller == agent => {
            if !game.is_away(agent) {
                return Ok(Turn::Differs);
            }
            let (_, news) = happen(game, Event::Deliver { agent })?;
            Ok(Turn::Passes(news))
        }
        _ => {
            game.apply(event.try_clone()?);
            Ok(Turn::Passes(None))
        }
    }
}

// The turn of an agent whose next event of the log is a command.
fn speak(
    game: &mut Match,
    agent: u16,
    command: &Command,
    step: &Step,
    wake_ups: &WakeUps,
) -> Result<Turn, Memory>
    ensures { IfOk result (λ turn. Takes agent wake_ups.now game.old (Event.Tell agent command.now) step.now turn
        game.new) }
{
    if !matches!(
        game.standing(agent),
        Standing::Outside | Standing::Present { .. }
    ) {
        return Ok(Turn::Differs);
    }
    match step {
        Step::Says(said) => {
            let event = Event::Tell {
                agent,
                command: said.try_clone()?,
            };
            let (is_kept, news) = happen(game, event)?;
            if said == command {
                return Ok(Turn::Passes(news));
            }
            if is_kept {
                return Ok(Turn::Differs);
            }
            match news {
                Some(news) => Ok(Turn::Idles(news)),
                None => Ok(Turn::Differs),
            }
        }
        Step::Sleeps if wake_ups.in_a_row <= u64::from(wake_ups.limit) => {
            Ok(Turn::Idles(AgentNews::Woke))
        }
        Step::Sleeps | Step::Stops | Step::Fails => Ok(Turn::Differs),
    }
}

// Plays an event. Returns whether the match keeps it, and what its agent observes of it.
fn happen(game: &mut Match, event: Event) -> Result<(bool, Option<AgentNews>), Memory>
    ensures happens { IfOk result (λ happened. Happens game.old event game.new) }
    ensures heard { IfOk result (λ happened. IsHeard game.old event happened.1) }
    ensures kept { IfOk result (λ happened. happened.0 ≡ keeps_next (world_in game.old) game.old.log event) }
{
    let answer = game.apply(event);
    let news = match answer.mark {
        Some(mark) => Some(AgentNews::Heard(game.reply(&mark)?)),
        None => None,
    };
    Ok((answer.place.is_some(), news))
}
