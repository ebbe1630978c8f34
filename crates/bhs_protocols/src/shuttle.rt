//! The shuttle as a program: an agent's memory, its step, and its memory after a reply.

ghost use Rattle.std.specs.Prelude.{◌≡◌, ◌<◌, ◌≤◌, ◌+◌, ◌/◌, ◌%◌, ◌++◌, [], ◌∷◌, IfOk, OnOk, string_bytes};
ghost use Rattle.bhs_schedules.specs.Strategies.{Heard};
ghost use Rattle.bhs_protocols.specs.Shuttle as specs;

use bhs_model::{Command, Reply};
use bhs_schedules::Step;
use bhs_text::Text;
use std::alloc::{AllocError, Global};

/// The phase of an agent, with its number of steps from the home base and the port by which it goes on.
#[derive(Clone, Copy, Debug, PartialEq, Eq)]
pub enum Phase {
    /// It has not entered.
    Begins,
    /// The agent walks out and stands at a node.
    GoesOut { steps: u16, port: u16 },
    /// The agent walks out and is on the link ahead.
    Leaves { steps: u16 },
    /// It comes back, and is at a node.
    ComesBack { steps: u16, port: u16 },
    /// It comes back, and is on the link towards the home base.
    Returns { steps: u16 },
    /// It is at the home base, and writes that one node more is safe.
    Writes,
    /// It has accused.
    Ends,
}

/// The side that an agent explores, by the port of the home base, how many nodes of its own and of the other side it
/// knows to be safe, and what it is about.
#[derive(Clone, Copy, Debug, PartialEq, Eq)]
pub struct Memory {
    pub side: u16,
    pub mine: u16,
    pub theirs: u16,
    pub phase: Phase,
}

/// What an agent does next on a ring of this number of nodes.
pub fn does(alloc: Global, nodes: u16, memory: Memory) -> Result<Step, AllocError>
    requires mine { memory.mine < 4096 }
    requires theirs { memory.theirs < 4096 }
    ensures { IfOk result (λ step. step ≡ specs.does_in nodes memory memory.phase) }
{
    match memory.phase {
        Phase::Begins => Ok(Step::Says(Command::Enter)),
        Phase::GoesOut { steps, port } => Ok(Step::Says(onward(nodes, memory, steps, port))),
        Phase::ComesBack { steps: _, port } => Ok(Step::Says(Command::Depart { port })),
        Phase::Writes => {
            let expect = text_by(alloc, memory.side, memory.mine, memory.theirs)?;
            let put = text_by(alloc, memory.side, memory.mine + 1, memory.theirs)?;
            Ok(Step::Says(Command::Write { expect, put }))
        }
        Phase::Leaves { steps: _ } => Ok(Step::Stops),
        Phase::Returns { steps: _ } => Ok(Step::Stops),
        Phase::Ends => Ok(Step::Stops),
    }
}

// Accuses the link ahead if only the node behind it is left, and otherwise goes on.
fn onward(nodes: u16, memory: Memory, steps: u16, port: u16) -> Command
    ensures { specs.says result ≡ specs.does_in nodes memory (specs.out_at steps port) }
{
    if steps == memory.mine
        && u32::from(memory.mine) + u32::from(memory.theirs) + 2 == u32::from(nodes)
    {
        Command::Accuse { port }
    } else {
        Command::Depart { port }
    }
}

/// What an agent holds after a reply.
pub fn after(memory: Memory, reply: &Reply) -> Memory
    requires mine { memory.mine < 4096 }
    requires steps { specs.steps_of memory.phase < 4096 }
    ensures { result ≡ specs.after_in memory memory.phase (Heard reply.now) }
{
    match memory.phase {
        Phase::Begins => entered(memory, reply),
        Phase::GoesOut { steps, port } => left(memory, steps, port, reply),
        Phase::Leaves { steps } => came_out(memory, steps, reply),
        Phase::ComesBack { steps, port } => turned(memory, steps, port, reply),
        Phase::Returns { steps } => came_back(memory, steps, reply),
        Phase::Writes => written(memory, reply),
        Phase::Ends => memory,
    }
}

fn entered(memory: Memory, reply: &Reply) -> Memory
    ensures { result ≡ specs.after_in memory specs.begins (Heard reply.now) }
{
    match reply {
        Reply::Here {
            ports: _,
            came: _,
            board,
        } => Memory {
            side: memory.side,
            mine: memory.mine,
            theirs: other_in(memory.side, board.as_str().as_bytes()),
            phase: Phase::GoesOut {
                steps: 0,
                port: memory.side,
            },
        },
        Reply::Written
        | Reply::Changed { board: _ }
        | Reply::Gone
        | Reply::Noted
        | Reply::Bye
        | Reply::Over => memory,
        Reply::No(_) => memory,
    }
}

fn left(memory: Memory, steps: u16, port: u16, reply: &Reply) -> Memory
    ensures { result ≡ specs.after_in memory (specs.out_at steps port) (Heard reply.now) }
{
    match reply {
        Reply::Gone => in_phase(memory, Phase::Leaves { steps }),
        Reply::Noted => in_phase(memory, Phase::Ends),
        Reply::Here {
            ports: _,
            came: _,
            board: _,
        } => memory,
        Reply::Written | Reply::Changed { board: _ } | Reply::Bye | Reply::Over | Reply::No(_) =>
            memory,
    }
}

fn came_out(memory: Memory, steps: u16, reply: &Reply) -> Memory
    requires mine { memory.mine < 4096 }
    requires steps { steps < 4096 }
    ensures { result ≡ specs.after_in memory (specs.leaves_at steps) (Heard reply.now) }
{
    match reply {
        Reply::Here {
            ports: _,
            came: Some(label),
            board: _,
        } => {
            if steps + 1 == memory.mine + 1 {
                in_phase(
                    memory,
                    Phase::ComesBack {
                        steps: steps + 1,
                        port: *label,
                    },
                )
            } else {
                in_phase(
                    memory,
                    Phase::GoesOut {
                        steps: steps + 1,
                        port: 1u16.saturating_sub(*label),
                    },
                )
            }
        }
        Reply::Here {
            ports: _,
            came: None,
            board: _,
        } => memory,
        Reply::Written
        | Reply::Changed { board: _ }
        | Reply::Gone
        | Reply::Noted
        | Reply::Bye
        | Reply::Over => memory,
        Reply::No(_) => memory,
    }
}

fn turned(memory: Memory, steps: u16, port: u16, reply: &Reply) -> Memory
    ensures { result ≡ specs.after_in memory (specs.back_at steps port) (Heard reply.now) }
{
    match reply {
        Reply::Gone => in_phase(memory, Phase::Returns { steps }),
        Reply::Here {
            ports: _,
            came: _,
            board: _,
        } => memory,
        Reply::Written
        | Reply::Changed { board: _ }
        | Reply::Noted
        | Reply::Bye
        | Reply::Over
        | Reply::No(_) => memory,
    }
}

fn came_back(memory: Memory, steps: u16, reply: &Reply) -> Memory
    ensures { result ≡ specs.after_in memory (specs.returns_at steps) (Heard reply.now) }
{
    match reply {
        Reply::Here {
            ports: _,
            came: Some(label),
            board,
        } => {
            let left = steps.saturating_sub(1);
            if left == 0 {
                Memory {
                    side: memory.side,
                    mine: memory.mine,
                    theirs: other_in(memory.side, board.as_str().as_bytes()),
                    phase: Phase::Writes,
                }
            } else {
                in_phase(
                    memory,
                    Phase::ComesBack {
                        steps: left,
                        port: 1u16.saturating_sub(*label),
                    },
                )
            }
        }
        Reply::Here {
            ports: _,
            came: None,
            board: _,
        } => memory,
        Reply::Written
        | Reply::Changed { board: _ }
        | Reply::Gone
        | Reply::Noted
        | Reply::Bye
        | Reply::Over => memory,
        Reply::No(_) => memory,
    }
}

fn written(memory: Memory, reply: &Reply) -> Memory
    requires { memory.mine < 4096 }
    ensures { result ≡ specs.after_in memory specs.writes (Heard reply.now) }
{
    match reply {
        Reply::Written => Memory {
            side: memory.side,
            mine: memory.mine + 1,
            theirs: memory.theirs,
            phase: Phase::GoesOut {
                steps: 0,
                port: memory.side,
            },
        },
        Reply::Changed { board } => Memory {
            side: memory.side,
            mine: memory.mine,
            theirs: other_in(memory.side, board.as_str().as_bytes()),
            phase: memory.phase,
        },
        Reply::Here {
            ports: _,
            came: _,
            board: _,
        } => memory,
        Reply::Gone | Reply::Noted | Reply::Bye | Reply::Over | Reply::No(_) => memory,
    }
}

fn in_phase(memory: Memory, phase: Phase) -> Memory
    ensures { result ≡ record memory { phase = phase } }
{
    Memory {
        side: memory.side,
        mine: memory.mine,
        theirs: memory.theirs,
        phase,
    }
}

// What a whiteboard says of the other side.
pub(crate) fn other_in(side: u16, text: &[u8]) -> u16
    ensures { result ≡ specs.other_in side text.now }
{
    if side == 0 {
        left_in(text)
    } else {
        right_in(text)
    }
}

pub(crate) fn right_in(text: &[u8]) -> u16
    ensures { result ≡ specs.right_in text.now }
{
    if text.len() < 2 {
        return 0;
    }
    u16::from(text[0].saturating_sub(32)) * 64 + u16::from(text[1].saturating_sub(32))
}

pub(crate) fn left_in(text: &[u8]) -> u16
    ensures { result ≡ specs.left_in text.now }
{
    if text.len() < 2 {
        return 0;
    }
    let rest = &text[2..];
    right_in(rest)
}

// The text of a whiteboard that says how many nodes of an agent's side and of the other are safe.
pub(crate) fn text_by(alloc: Global, side: u16, mine: u16, theirs: u16) -> Result<Text, AllocError>
    requires mine { mine ≤ 4096 }
    requires theirs { theirs < 4096 }
    ensures { IfOk result (λ text. text ≡ specs.text_by side mine theirs) }
{
    if side == 0 {
        board_text(alloc, mine, theirs)
    } else {
        board_text(alloc, theirs, mine)
    }
}

fn board_text(alloc: Global, right: u16, left: u16) -> Result<Text, AllocError>
    requires right { right ≤ 4096 }
    requires left { left ≤ 4096 }
    ensures { IfOk result (λ text. text ≡ specs.board_text right left) }
{
    if right == 0 && left == 0 {
        return Ok(Text::empty());
    }
    let mut text = String::new(alloc);
    push(&mut text, right / 64)?;
    push(&mut text, right % 64)?;
    push(&mut text, left / 64)?;
    push(&mut text, left % 64)?;
    Text::new(alloc, text.as_str())
}

fn push(text: &mut String, digit: u16) -> Result<(), AllocError>
    requires { digit ≤ 64 }
    ensures { OnOk result (string_bytes text.new ≡ string_bytes text.old ++ (32 + digit) ∷ []) }
{
    text.push(char::from(b' ' + digit as u8))
}
