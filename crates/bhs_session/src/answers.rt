//! Answering a command, and the arrival that follows a departure.

ghost use Rattle.std.specs.Prelude.{◌≡◌, true, if◌then◌else◌};
ghost use Rattle.bhs_session.specs.Phase.{Ready, Awaits, Owes, answered_by, waiting};
ghost use Rattle.bhs_session.specs.Texts.{text_of};
ghost use Rattle.bhs_session.specs.Session.{Point};
ghost use Rattle.bhs_session.specs.Moves.{Ends};

use crate::endings::{Ended, Stop};
use crate::last_line::LastLine;
use crate::port::Port;
use crate::replies::write_reply;
use bhs_model::Reply;
use bhs_net::Memory;
use bhs_stream::Output;

// Writes an answer, and the news that it waits for.
pub(crate) fn answer<W: Output, P: Port>(
    last: &mut LastLine,
    writer: &mut W,
    port: &mut P,
    reply: Reply,
) -> Result<(), Stop>
    ensures { (p : Point W P) → Ends W.takes P.calls
        (record p {
          output = writer.old;
          port = port.old;
          phase = Owes (text_of reply)
              (answered_by true reply);
        })
        writer.new port.new p.taken (λ _. Ready) result }
{
    let waits = waits_for_news(&reply);
    write_reply(last, writer, reply)?;
    if waits {
        write_news(last, writer, port)
    } else {
        Ok(())
    }
}

// Whether news are asked for after this answer.
fn waits_for_news(reply: &Reply) -> bool
    ensures { waiting true reply.now ≡ if result then Awaits else Ready }
{
    matches!(reply, Reply::Gone)
}

// Asks for news, and writes them.
fn write_news<W: Output, P: Port>(
    last: &mut LastLine,
    writer: &mut W,
    port: &mut P,
) -> Result<(), Stop>
    ensures { (p : Point W P) → Ends W.takes P.calls
        (record p {
          output = writer.old;
          port = port.old;
          phase = Awaits;
        }) writer.new port.new p.taken (λ _. Ready) result }
{
    match port.news() {
        Ok(news) => write_reply(last, writer, news),
        Err(Memory) => Err(Stop::Leaves(Ended::Memory)),
    }
}
