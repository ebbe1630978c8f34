//! Taking the items of a connection that plays an agent.

ghost use Rattle.std.specs.Prelude.{◌≡◌, ◌∷◌, false, List, map, IfOk, MatchOption};
ghost use Rattle.bhs_model.specs.declared.events.Event.TheVariants.{Tell};
ghost use Rattle.bhs_model.specs.Marks.{read_if};
ghost use Rattle.bhs_rehearsal.specs.Games.{played, reply_to, is_away};
ghost use Rattle.bhs_rehearsal.specs.Connections.{Item as ItemData, taken, leaves, answers};
ghost use Rattle.bhs_rehearsal.specs.Rehearsing.{game_of, team_of, seen_item};
ghost use Rattle.bhs_rehearsal.specs.Takings.{behind, goes_on, left_if};

use crate::items::Item;
use bhs_model::{Command, Event, Mark};
use bhs_net::Memory;
use bhs_session::{command_in, ending_of, push_reply};
use bhs_setups::Ready;
use bhs_wire::{LentReply, LineReader};
use std::alloc::Global;
use std::collections::VecDeque;

// Takes items in order until the agent is away or the connection is done, adds the texts that the connection
// is sent, and says whether it is done.
pub(crate) fn take_items(
    alloc: Global,
    line_reader: &mut LineReader,
    ready: &mut Ready,
    agent: u16,
    queue: &mut VecDeque<Item<'_>>,
    text: &mut Vec<u8>,
) -> Result<bool, Memory>
    ensures taken { IfOk result (λ is_done. behind text.old.items
        (taken (game_of ready.old) agent (map seen_item queue.old.items))
        ≡ record {
          game = game_of ready.new;
          is_done = is_done;
          left = left_if is_done (map seen_item queue.new.items);
          text = text.new.items;
        }) }
    ensures team { team_of ready.new ≡ team_of ready.old }
{
    while let Some(item) = next_item(ready, agent, queue) {
        if take_item(alloc, line_reader, ready, agent, item, text)? {
            return Ok(true);
        }
    }
    Ok(false)
}

// The next item, unless the agent is away.
fn next_item<'s>(ready: &Ready, agent: u16, queue: &mut VecDeque<Item<'s>>) -> Option<Item<'s>>
    ensures { MatchOption result
        ((queue.new.items ≡ queue.old.items)
        × (taken (game_of ready.now) agent (map seen_item queue.old.items)
        ≡ leaves (game_of ready.now) (map seen_item queue.old.items)))
        (λ item. (queue.old.items ≡ item ∷ queue.new.items) × (is_away (game_of ready.now) agent ≡ false)) }
{
    if ready.game.is_away(agent) {
        return None;
    }
    queue.pop_front()
}

// Takes one item of an agent at a node. Returns whether this item was the last.
fn take_item(
    alloc: Global,
    line_reader: &mut LineReader,
    ready: &mut Ready,
    agent: u16,
    item: Item<'_>,
    text: &mut Vec<u8>,
) -> Result<bool, Memory>
    ensures taken { (others : List ItemData) → is_away (game_of ready.old) agent ≡ false
        → IfOk result (λ is_done.
        behind text.old.items (taken (game_of ready.old) agent (seen_item item.entry ∷ others))
        ≡ goes_on is_done (game_of ready.new) agent others text.new.items) }
    ensures team { team_of ready.new ≡ team_of ready.old }
{
    match item {
        Item::Says(line) => {
            let first = line.said(line_reader)?;
            answer_command(alloc, ready, agent, command_in(first), text)
        }
        Item::Ends => {
            play_event(
                ready,
                Event::Tell {
                    agent,
                    command: Command::Leave,
                },
            );
            Ok(true)
        }
    }
}

// Submits a command and appends the text of its reply. Returns whether the reply is the last.
fn answer_command(
    alloc: Global,
    ready: &mut Ready,
    agent: u16,
    command: Command,
    text: &mut Vec<u8>,
) -> Result<bool, Memory>
    ensures taken { (others : List ItemData) → IfOk result (λ is_done.
        behind text.old.items (answers (reply_to (game_of ready.old) (Tell agent command))
        (played (game_of ready.old) (Tell agent command))
        (taken (played (game_of ready.old) (Tell agent command)) agent others))
        ≡ goes_on is_done (game_of ready.new) agent others text.new.items) }
    ensures team { team_of ready.new ≡ team_of ready.old }
{
    let Some(mark) = play_event(ready, Event::Tell { agent, command }) else {
        return Ok(false);
    };
    let reply = LentReply::of_mark(mark, ready.game.text(&mark));
    push_reply(alloc, reply, text)?;
    Ok(ending_of(reply).is_some())
}

// Plays an event of a match. Takes no memory.
pub(crate) fn play_event(ready: &mut Ready, event: Event) -> Option<Mark>
    ensures game { game_of ready.new ≡ played (game_of ready.old) event }
    ensures reply { read_if ready.new.game.log result ≡ reply_to (game_of ready.old) event }
    ensures team { team_of ready.new ≡ team_of ready.old }
{
    ready.game.apply(event).mark
}
