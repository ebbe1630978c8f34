//! What each instruction of a script makes of a rehearsal.

ghost use Rattle.std.specs.Prelude.{◌<◌, ◌≡◌, ◌^◌, [], ◌∷◌, length, map, option_map, Some, IfOk, IfSome};
ghost use Rattle.std.specs.List.{position};
ghost use Rattle.bhs_model.specs.Marks.{read_if};
ghost use Rattle.bhs_model.specs.declared.replies.Reply.{Reply};
ghost use Rattle.bhs_model.specs.declared.replies.Reply.TheVariants.{Over};
ghost use Rattle.bhs_wire.specs.LentReply.{reply_of};
ghost use Rattle.bhs_session.specs.Texts.{text_of};
ghost use Rattle.bhs_model.specs.declared.events.Event.TheVariants.{Close};
ghost use Rattle.bhs_rehearsal.specs.Choices.{chosen};
ghost use Rattle.bhs_rehearsal.specs.Games.{drawn, delivered, played};
ghost use Rattle.bhs_rehearsal.specs.Stages.{feeds, ends, delivers, tells_arrival, closes, game_at, with_game};
ghost use Rattle.bhs_rehearsal.specs.Stages.{has_seat, sent_to, told_over, shut_in};
ghost use Rattle.bhs_rehearsal.specs.Rehearsing.{game_of, team_of, seen_out, sent_all, sent_once, on_stage};
ghost use Rattle.bhs_rehearsal.specs.Takings.{IsStepped, IsDrawn, after_draw, mark_at, told_to};

use crate::choices::Choice;
use crate::connections::Connection;
use crate::outs::Out;
use crate::rehearsals::Rehearsal;
use crate::takings::play_event;
use bhs_deliveries::{Drawn, deliver, draw};
use bhs_match::Match;
use bhs_model::{Event, Kept};
use bhs_net::Memory;
use bhs_session::push_reply;
use bhs_setups::Ready;
use bhs_wire::LentReply;
use std::alloc::Global;

impl<'s> Rehearsal<'s> {
    // Bytes are fed to a connection.
    pub(crate) fn fed(&mut self, conn: u16, bytes: &'s [u8]) -> Result<Option<Out>, Memory>
        requires { conn < length self.old.stage.connections }
        ensures { IsStepped sent_once self.old (feeds self.old.stage conn bytes.now) result self.new }
    {
        let alloc = *self.connections.allocator();
        let connection = &mut self.connections[usize::from(conn)];
        if connection.has_ended() {
            return Ok(None);
        }
        connection.receive(alloc, bytes, &mut self.found)?;
        let mut text = self.empty_text(alloc);
        self.moves(alloc, conn, &mut text)?;
        Ok(self.sent_to(conn, text))
    }

    // The same of bytes that are lent for this call alone.
    pub(crate) fn fed_copied(&mut self, conn: u16, bytes: &[u8]) -> Result<Option<Out>, Memory>
        requires { conn < length self.old.stage.connections }
        ensures { IsStepped sent_once self.old (feeds self.old.stage conn bytes.now) result self.new }
    {
        let alloc = *self.connections.allocator();
        let connection = &mut self.connections[usize::from(conn)];
        if connection.has_ended() {
            return Ok(None);
        }
        connection.receive_copied(alloc, bytes)?;
        let mut text = self.empty_text(alloc);
        self.moves(alloc, conn, &mut text)?;
        Ok(self.sent_to(conn, text))
    }

    // The input of a connection ends.
    pub(crate) fn ended(&mut self, conn: u16) -> Result<Option<Out>, Memory>
        requires { conn < length self.old.stage.connections }
        ensures { IsStepped sent_once self.old (ends self.old.stage conn) result self.new }
    {
        let alloc = *self.connections.allocator();
        let connection = &mut self.connections[usize::from(conn)];
        if connection.has_ended() {
            return Ok(None);
        }
        connection.end()?;
        let mut text = self.empty_text(alloc);
        self.moves(alloc, conn, &mut text)?;
        Ok(self.sent_to(conn, text))
    }

    // An agent of a match is delivered.
    pub(crate) fn drawn(&mut self, game: u32, choice: Choice) -> Result<Option<Out>, Memory>
        requires { game < length self.old.stage.games }
        ensures { IsStepped sent_once self.old
            (delivers self.old.stage game (chosen (game_at self.old.stage game) choice)) result self.new }
    {
        let alloc = *self.connections.allocator();
        let mut text = self.empty_text(alloc);
        let Some(agent) = self.delivered(alloc, game, choice, &mut text)? else {
            self.keep(text);
            return Ok(None);
        };
        match self.holder((game, agent)) {
            Some(conn) => self.tells_arrival(alloc, conn, text),
            None => {
                self.keep(text);
                Ok(None)
            }
        }
    }

    // What the delivery makes of the match. Gives the agent that arrives, and adds the text that it is told.
    fn delivered(
        &mut self,
        alloc: Global,
        game: u32,
        choice: Choice,
        text: &mut Vec<u8>,
    ) -> Result<Option<u16>, Memory>
        requires { game < length self.old.stage.games }
        ensures { IsDrawn self.old game (after_draw (game_at self.old.stage game)
            (chosen (game_at self.old.stage game) choice)) text.old.items result text.new.items self.new }
    {
        let ready = &mut self.ready[game as usize];
        deliver_chosen(alloc, ready, choice, text)
    }

    // The first connection that plays this agent of this match.
    fn holder(&self, seat: (u32, u16)) -> Option<u16>
        ensures place { result ≡ position (has_seat seat) self.now.stage.connections }
        ensures within { IfSome result (λ conn. conn < length self.now.stage.connections) }
    {
        self.holders.holder(seat)
    }

    // Reports an arrival to the agent's connection, which then takes as many of its items as it can.
    fn tells_arrival(
        &mut self,
        alloc: Global,
        conn: u16,
        mut text: Vec<u8>,
    ) -> Result<Option<Out>, Memory>
        requires { conn < length self.old.stage.connections }
        ensures { (reply : Reply) → text.items ≡ text_of reply
            → IsStepped sent_once self.old (tells_arrival self.old.stage (Some reply) (Some conn)) result self.new }
    {
        self.moves(alloc, conn, &mut text)?;
        Ok(self.sent_to(conn, text))
    }

    // Nothing is sent if there is no text.
    fn sent_to(&mut self, conn: u16, bytes: Vec<u8>) -> Option<Out>
        ensures sent { sent_once result ≡ sent_to conn bytes.items }
        ensures same { self.new ≡ self.old }
    {
        if bytes.is_empty() {
            self.keep(bytes);
            None
        } else {
            Some(Out { conn, bytes })
        }
    }

    // A match is ended.
    pub(crate) fn closed(&mut self, game: u32) -> Result<Vec<Out>, Memory>
        requires { game < length self.old.stage.games }
        ensures { IsStepped sent_all self.old (closes self.old.stage game) result self.new }
    {
        let alloc = *self.connections.allocator();
        let is_closed = self.game(game).game.closed();
        if is_closed {
            return Ok(Vec::new(alloc));
        }
        let outs = self.tells_over(alloc, game)?;
        self.shuts_waiting(game);
        self.plays_close(game);
        Ok(outs)
    }

    // The match of a number.
    fn game(&self, game: u32) -> &Ready
        requires { game < length self.now.stage.games }
        ensures { game_of result.now ≡ game_at self.now.stage game }
    {
        &self.ready[game as usize]
    }

    // What each connection is sent that waits in a match when it ends.
    fn tells_over(&self, alloc: Global, game: u32) -> Result<Vec<Out>, Memory>
        requires { game < length self.now.stage.games }
        ensures { IfOk result (λ outs. map seen_out outs.items
            ≡ told_over game (game_at self.now.stage game) 0 self.now.stage.connections) }
    {
        told_over(alloc, game, self.game(game), &self.connections)
    }

    // Nothing more is taken of the connections that wait in a match.
    fn shuts_waiting(&mut self, game: u32)
        requires { game < length self.old.stage.games }
        ensures { self.new ≡ on_stage self.old
            (record self.old.stage {
              connections = shut_in game (game_at self.old.stage game)
                  self.old.stage.connections;
            }) }
    {
        let ready = &self.ready[game as usize];
        shut_waiting(game, ready, &mut self.connections);
    }

    fn plays_close(&mut self, game: u32)
        requires { game < length self.old.stage.games }
        ensures { self.new ≡ on_stage self.old
            (with_game self.old.stage game (played (game_at self.old.stage game) Close)) }
    {
        let ready = &mut self.ready[game as usize];
        play_event(ready, Event::Close);
    }
}

// Delivers an agent of a match. Gives the agent if it arrives, and adds the text that it is told.
fn deliver_chosen(
    alloc: Global,
    ready: &mut Ready,
    choice: Choice,
    text: &mut Vec<u8>,
) -> Result<Option<u16>, Memory>
    ensures drawn { let drawn = after_draw (game_of ready.old) (chosen (game_of ready.old) choice) in
        IfOk result (λ agent. (game_of ready.new ≡ drawn.game)
        × ((agent, text.new.items) ≡ told_to text.old.items drawn.arrival)) }
    ensures team { team_of ready.new ≡ team_of ready.old }
{
    match choice {
        Choice::Word(word) => draw_in(alloc, ready, word, text),
        Choice::Agent(agent) => deliver_in(alloc, ready, agent, text),
    }
}

// Delivers this agent.
fn deliver_in(
    alloc: Global,
    ready: &mut Ready,
    agent: u16,
    text: &mut Vec<u8>,
) -> Result<Option<u16>, Memory>
    ensures drawn { let drawn = after_draw (game_of ready.old) (delivered (game_of ready.old) agent) in
        IfOk result (λ found. (game_of ready.new ≡ drawn.game)
        × ((found, text.new.items) ≡ told_to text.old.items drawn.arrival)) }
    ensures team { team_of ready.new ≡ team_of ready.old }
{
    let before = ready.game.log().len();
    deliver(&mut ready.game, &ready.held, agent);
    match reply_at(&ready.game, before) {
        Some(reply) => {
            push_reply(alloc, reply, text)?;
            Ok(Some(agent))
        }
        None => Ok(None),
    }
}

// Delivers the agent that a word picks.
fn draw_in(
    alloc: Global,
    ready: &mut Ready,
    word: u32,
    text: &mut Vec<u8>,
) -> Result<Option<u16>, Memory>
    ensures drawn { let drawn = after_draw (game_of ready.old) (drawn (game_of ready.old) word) in
        IfOk result (λ agent. (game_of ready.new ≡ drawn.game)
        × ((agent, text.new.items) ≡ told_to text.old.items drawn.arrival)) }
    ensures team { team_of ready.new ≡ team_of ready.old }
{
    let before = ready.game.log().len();
    let Drawn::Delivered { agent } = draw(&mut ready.game, &ready.held, word) else {
        return Ok(None);
    };
    match reply_at(&ready.game, before) {
        Some(reply) => {
            push_reply(alloc, reply, text)?;
            Ok(Some(agent))
        }
        None => Ok(None),
    }
}

// Returns the reply to the event at a place of the log, if the event exists and got one.
fn reply_at(game: &Match, place: usize) -> Option<LentReply<'_>>
    ensures { option_map reply_of result ≡ read_if game.now.log (mark_at game.now.log place) }
{
    let Some(
        Kept {
            mark: Some(mark),
            ..
        },
    ) = game.log().get(place)
    else {
        return None;
    };
    Some(LentReply::of_mark(*mark, game.text(mark)))
}

// What each connection is sent that waits in a match when it ends.
fn told_over(
    alloc: Global,
    number: u32,
    ready: &Ready,
    connections: &[Connection<'_>],
) -> Result<Vec<Out>, Memory>
    requires { length connections.now < 2 ^ 16 }
    ensures { IfOk result (λ outs. map seen_out outs.items ≡ told_over number (game_of ready.now) 0 connections.now) }
{
    let mut outs = Vec::new(alloc);
    for (conn, connection) in connections.iter().enumerate() {
        if connection.waits_in(number, ready) {
            outs.push(over_to(alloc, conn as u16)?)?;
        }
    }
    Ok(outs)
}

fn over_to(alloc: Global, conn: u16) -> Result<Out, Memory>
    ensures { IfOk result (λ out. seen_out out ∷ [] ≡ sent_to conn (text_of Over)) }
{
    let mut bytes = Vec::new(alloc);
    push_reply(alloc, LentReply::Over, &mut bytes)?;
    Ok(Out { conn, bytes })
}

// Nothing more is taken of the connections that wait in a match.
fn shut_waiting(number: u32, ready: &Ready, connections: &mut [Connection<'_>])
    ensures { connections.new ≡ shut_in number (game_of ready.now) connections.old }
{
    for connection in connections.iter_mut() {
        if connection.waits_in(number, ready) {
            connection.shut();
        }
    }
}
