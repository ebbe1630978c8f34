//! Short lines that were read. An agent that waits for others looks again and again, and one that walks departs by a
//! few ports, so that the same lines come many times.

ghost use Rattle.std.specs.Prelude.{◌≡◌, ◌<◌, ◌≤◌, take, IfSome};
ghost use Rattle.bhs_wire.specs.First.{first_of};
ghost use Rattle.bhs_wire.specs.declared.commands.First.TheVariants.{Tell};
ghost use Rattle.bhs_wire.specs.declared.short_lines.TheConstants.{PLACES, ROOM};

use bhs_model::Command;
use std::array;

// The most bytes of a line that is remembered. All commands without texts have such lines.
const ROOM: usize = 32;

// How many lines are remembered at most.
const PLACES: usize = 16;

// Lines with what they say, each at a place that its bytes give. Of two lines with one place the last is remembered.
#[derive(Drop)]
pub(crate) struct ShortLines {
    lines: [Option<Remembered>; PLACES],
}

impl ShortLines {
    // No line is remembered yet.
    pub(crate) fn new() -> ShortLines {
        ShortLines {
            lines: array::from_fn(|_| None),
        }
    }

    // What a line says, if it is remembered.
    pub(crate) fn recall(&self, line: &[u8]) -> Option<Command>
        ensures { IfSome result (λ command. first_of line.now ≡ Tell command) }
    {
        self.lines[place_of(line)].as_ref()?.recall(line)
    }

    // Remembers what a line says, if it is short and the command has no texts.
    pub(crate) fn remember(&mut self, line: &[u8], command: &Command)
        requires { first_of line.now ≡ Tell command.now }
    {
        if let Some(remembered) = Remembered::new(line, command) {
            self.lines[place_of(line)] = Some(remembered);
        }
    }
}

// The place of a line. Lines of one command with other ports of one digit have other places.
fn place_of(line: &[u8]) -> usize
    ensures { result < PLACES }
{
    match line {
        [.., byte, _] => (line.len() + usize::from(*byte)) % PLACES,
        _ => 0,
    }
}

// A line, and the command without texts that it says.
#[derive(Drop)]
struct Remembered {
    bytes: [u8; ROOM],
    len: usize,
    command: Command,
    ghost fits: { len ≤ ROOM },
    ghost said: { first_of (take len bytes) ≡ Tell command },
}

impl Remembered {
    // Remembers a line with its command if the line is short and its command has no texts.
    fn new(line: &[u8], command: &Command) -> Option<Remembered>
        requires { first_of line.now ≡ Tell command.now }
    {
        if line.len() > ROOM {
            return None;
        }
        let command = without_texts(command)?;
        let mut bytes = [0; ROOM];
        bytes[..line.len()].copy_from_slice(line);
        Some(Remembered {
            bytes,
            len: line.len(),
            command,
        })
    }

    // Returns the command of a remembered line, if this is the line.
    fn recall(&self, line: &[u8]) -> Option<Command>
        ensures { IfSome result (λ command. first_of line.now ≡ Tell command) }
    {
        if &self.bytes[..self.len] == line {
            without_texts(&self.command)
        } else {
            None
        }
    }
}

// The same command, unless it has texts.
fn without_texts(command: &Command) -> Option<Command>
    ensures { IfSome result (λ same. same ≡ command.now) }
{
    match command {
        Command::Enter => Some(Command::Enter),
        Command::Look => Some(Command::Look),
        Command::Write { .. } => None,
        Command::Depart { port } => Some(Command::Depart { port: *port }),
        Command::Accuse { port } => Some(Command::Accuse { port: *port }),
        Command::Leave => Some(Command::Leave),
        Command::Bad => Some(Command::Bad),
    }
}
