//! What the type of the events can hold.

ghost use Rattle.std.specs.Prelude.{option_map};
ghost use Rattle.bhs_wire.specs.LentReply.{reply_of};
ghost use Rattle.bhs_replay.specs.Played.{IsTyped, CommandIsText, ReplyIsText};
ghost use Rattle.bhs_replay.specs.Spelling.{CommandFits, ReplyFits};

use bhs_model::{Command, Event};
use bhs_wire::LentReply;

/// Each value of the type `Event` is an event that the law `every_replay_is_read` allows in a match. This changes
/// nothing: reading a number shows that it has 16 bits, and reading a text shows that it is UTF-8.
pub fn each_event_is_typed(event: &Event)
    ensures { IsTyped event.now }
{
    match event {
        Event::Tell { agent, command } => {
            let _agent = *agent;
            each_command_is_typed(command);
        }
        Event::Deliver { agent } => {
            let _agent = *agent;
        }
        Event::Close => {}
    }
}

fn each_command_is_typed(command: &Command)
    ensures numbers { CommandFits command.now }
    ensures texts { CommandIsText command.now }
{
    match command {
        Command::Write { expect, put } => {
            let _expect = expect.as_str();
            let _put = put.as_str();
        }
        Command::Depart { port } | Command::Accuse { port } => {
            let _port = *port;
        }
        Command::Enter | Command::Look | Command::Leave | Command::Bad => {}
    }
}

// Each value of the type `LentReply` is a reply whose numbers have 16 bits and whose text is UTF-8.
pub(crate) fn each_reply_is_typed(reply: Option<LentReply<'_>>)
    ensures numbers { ReplyFits (option_map reply_of reply.entry) }
    ensures texts { ReplyIsText (option_map reply_of reply.entry) }
{
    let _reply = reply;
}
