//! Taking the lines of a client.

ghost use Rattle.std.specs.Prelude.{◌≡◌, [], ◌∷◌, ◌++◌, map, IfOk, IfErr};
ghost use Rattle.bhs_wire.specs.Lines.{Line, lines, seen, said_by};
ghost use Rattle.bhs_session.specs.Phase.{Fresh, Ready, between};
ghost use Rattle.bhs_session.specs.Machine.{Asks, Denies, ask};
ghost use Rattle.bhs_session.specs.Port.{Enters, Tells};
ghost use Rattle.bhs_session.specs.Session.{Point, IsNext};
ghost use Rattle.bhs_session.specs.Moves.{Ends};

use crate::answers::answer;
use crate::endings::{Ended, Stop};
use crate::last_line::LastLine;
use crate::port::{Entered, Port};
use crate::replies::write_denial;
use bhs_model::{Command, Text};
use bhs_net::Memory;
use bhs_stream::Output;
use bhs_wire::{Denial, First, LineReader, Raw};

// Takes lines in order. Says whether the session has entered.
pub(crate) fn take_lines<W: Output, P: Port>(
    last: &mut LastLine,
    line_reader: &mut LineReader,
    writer: &mut W,
    port: &mut P,
    has_entered: bool,
    found: &[Raw<'_>],
) -> Result<bool, Stop>
    ensures { (p : Point W P) → lines p.read ≡ p.taken ++ map seen found.now
        → Ends W.takes P.calls
        (record p { output = writer.old; port = port.old; phase = between has_entered })
        writer.new port.new (lines p.read) between result }
{
    let mut entered = has_entered;
    for line in found {
        take_line(last, line_reader, writer, port, entered, line)?;
        entered = true;
    }
    Ok(entered)
}

// Takes one line, with the news that its answer waits for.
fn take_line<W: Output, P: Port>(
    last: &mut LastLine,
    line_reader: &mut LineReader,
    writer: &mut W,
    port: &mut P,
    has_entered: bool,
    line: &Raw<'_>,
) -> Result<(), Stop>
    ensures { (p : Point W P) → IsNext p.read p.taken (seen line.now)
        → Ends W.takes P.calls
        (record p { output = writer.old; port = port.old; phase = between has_entered })
        writer.new port.new (p.taken ++ seen line.now ∷ []) (λ _. Ready) result }
{
    let Ok(first) = line.said(line_reader) else {
        return Err(Stop::between_lines(has_entered, Ended::Memory));
    };
    if has_entered {
        show_no_command(port, line, &first);
        take_later(last, writer, port, first)
    } else {
        take_first(last, writer, port, first)
    }
}

// Shows the port a line that is no command.
fn show_no_command<P: Port>(port: &P, line: &Raw<'_>, first: &First) {
    if matches!(first, First::Tell(Command::Bad)) {
        port.show(line);
    }
}

// Takes the first line, which lets the session in or not.
fn take_first<W: Output, P: Port>(
    last: &mut LastLine,
    writer: &mut W,
    port: &mut P,
    first: First,
) -> Result<(), Stop>
    ensures { (p : Point W P) (line : Line) → IsNext p.read p.taken line → said_by line ≡ first
        → Ends W.takes P.calls
        (record p { output = writer.old; port = port.old; phase = Fresh })
        writer.new port.new (p.taken ++ line ∷ []) (λ _. Ready) result }
{
    let key = match key_in(first) {
        Ok(key) => key,
        Err(denial) => return Err(write_denial(writer, denial)),
    };
    match port.enter(key.as_str()) {
        Ok(Entered::In(reply)) => answer(last, writer, port, reply),
        Ok(Entered::Key) => Err(write_denial(writer, Denial::Key)),
        Ok(Entered::Taken) => Err(write_denial(writer, Denial::Taken)),
        Err(Memory) => Err(Stop::Finished(Ended::Memory)),
    }
}

// Takes a line after the first.
fn take_later<W: Output, P: Port>(
    last: &mut LastLine,
    writer: &mut W,
    port: &mut P,
    first: First,
) -> Result<(), Stop>
    ensures { (p : Point W P) (line : Line) → IsNext p.read p.taken line → said_by line ≡ first
        → Ends W.takes P.calls
        (record p { output = writer.old; port = port.old; phase = Ready })
        writer.new port.new (p.taken ++ line ∷ []) (λ _. Ready) result }
{
    match port.tell(command_in(first)) {
        Ok(reply) => answer(last, writer, port, reply),
        Err(Memory) => Err(Stop::Leaves(Ended::Memory)),
    }
}

/// The key that the first line asks for, or why the line is denied.
pub fn key_in(first: First) -> Result<Text, Denial>
    ensures key { IfOk result (λ key. ask Fresh first ≡ Asks (Enters key)) }
    ensures denial { IfErr result (λ denial. ask Fresh first ≡ Denies denial) }
{
    match first {
        First::Enter { key } => Ok(key),
        First::Tell(_) => Err(Denial::Enter),
    }
}

/// The command that a later line tells. An enter with a key is the command Enter, and its key is not looked at.
pub fn command_in(first: First) -> Command
    ensures { ask Ready first ≡ Asks (Tells result) }
{
    match first {
        First::Enter { .. } => Command::Enter,
        First::Tell(command) => command,
    }
}
