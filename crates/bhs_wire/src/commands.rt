//! What a line of a client says.

ghost use Rattle.std.specs.Prelude.{◌≡◌, IfOk};
ghost use Rattle.bhs_model.specs.declared.commands.Command.TheVariants.{Write};
ghost use Rattle.bhs_wire.specs.First.{first_of, first_with, write_with, depart_by, accuse_by};
ghost use Rattle.bhs_wire.specs.Said.{told, text_in, port_in};

use crate::plain_writes::plain_write;
use crate::said::{Content, Said, read_object};
use crate::short_lines::ShortLines;
use bhs_model::{Command, Text};
use bhs_net::Memory;
use json::{Invalid, Reader, Scratch};
use std::alloc::Global;

/// What a line of a client says. The first line of a session must be an `Enter`.
#[derive(Clone, Debug, PartialEq, Eq, Drop)]
pub enum First {
    /// The client enters with a key.
    Enter { key: Text },
    /// The client's agent says this.
    Tell(Command),
}

/// A reader of command lines. It reuses its buffer from line to line, and caches the commands of the latest short
/// lines.
#[derive(Drop)]
pub struct LineReader {
    alloc: Global,
    scratch: Scratch,
    short_lines: ShortLines,
}

impl LineReader {
    /// A reader of lines. Takes no memory.
    pub fn new(alloc: Global) -> LineReader {
        LineReader {
            alloc,
            scratch: Scratch::new(alloc),
            short_lines: ShortLines::new(),
        }
    }

    /// Parses a line of a client that is neither blank nor too long. A line that is no JSON object in UTF-8, or lacks
    /// what its command needs, gives the command `Bad`. Other keys of the object are ignored.
    pub fn command_of(&mut self, line: &[u8]) -> Result<First, Memory>
        ensures { IfOk result (λ first. first ≡ first_of line.now) }
    {
        if let Some(command) = self.short_lines.recall(line) {
            return Ok(First::Tell(command));
        }
        let first = self.read(line)?;
        if let First::Tell(command) = &first {
            self.short_lines.remember(line, command);
        }
        Ok(first)
    }

    // What a line says that is not remembered.
    fn read(&mut self, line: &[u8]) -> Result<First, Memory>
        ensures { IfOk result (λ first. first ≡ first_of line.now) }
    {
        let alloc = self.alloc;
        let Ok(text) = str::from_utf8(line) else {
            return Ok(First::Tell(Command::Bad));
        };
        if let Some((expect, put)) = plain_write(text) {
            return Ok(First::Tell(write_of(alloc, expect, put)?));
        }
        let mut reader = Reader::new(text, &mut self.scratch)?;
        match read_object(&mut reader) {
            Ok(said) => command_in(alloc, &said),
            Err(Invalid) => Ok(First::Tell(Command::Bad)),
        }
    }
}

fn command_in(alloc: Global, said: &Said<'_>) -> Result<First, Memory>
    ensures { IfOk result (λ first. first ≡ told said.now) }
{
    let Content::Text(word) = said.word else {
        return Ok(First::Tell(Command::Bad));
    };
    let command = match word {
        "enter" => return enter_in(alloc, said),
        "look" => Command::Look,
        "write" => write_in(alloc, said)?,
        "depart" => depart_in(said),
        "accuse" => accuse_in(said),
        "leave" => Command::Leave,
        _ => Command::Bad,
    };
    Ok(First::Tell(command))
}

fn enter_in(alloc: Global, said: &Said<'_>) -> Result<First, Memory>
    ensures { IfOk result (λ first. first ≡ first_with (text_in said.now.key)) }
{
    match said.key {
        Content::Text(key) => Ok(First::Enter {
            key: text_of(alloc, key)?,
        }),
        _ => Ok(First::Tell(Command::Bad)),
    }
}

fn write_in(alloc: Global, said: &Said<'_>) -> Result<Command, Memory>
    ensures { IfOk result (λ command. command ≡ write_with (text_in said.now.expect) (text_in said.now.put)) }
{
    match (said.expect, said.put) {
        (Content::Text(expect), Content::Text(put)) => write_of(alloc, expect, put),
        _ => Ok(Command::Bad),
    }
}

fn write_of(alloc: Global, expect: &str, put: &str) -> Result<Command, Memory>
    ensures { IfOk result (λ command. command ≡ Write expect.now put.now) }
{
    Ok(Command::Write {
        expect: text_of(alloc, expect)?,
        put: text_of(alloc, put)?,
    })
}

fn depart_in(said: &Said<'_>) -> Command
    ensures { result ≡ depart_by (port_in said.now.port) }
{
    match said.port {
        Content::Port(port) => Command::Depart { port },
        _ => Command::Bad,
    }
}

fn accuse_in(said: &Said<'_>) -> Command
    ensures { result ≡ accuse_by (port_in said.now.port) }
{
    match said.port {
        Content::Port(port) => Command::Accuse { port },
        _ => Command::Bad,
    }
}

fn text_of(alloc: Global, text: &str) -> Result<Text, Memory>
    ensures { IfOk result (λ copy. copy ≡ text.now) }
{
    Ok(Text::new(alloc, text)?)
}
