//! The search by halves as a program: an agent's memory, its step, and its memory after a reply.

ghost use Rattle.std.specs.Prelude.{◌≡◌, ◌<◌, ◌≤◌, ◌+◌, ◌-◌, ◌/◌, Some, None, IfOk};
ghost use Rattle.bhs_model.specs.declared.replies.Reply.TheVariants.{Here, Written, Changed, Gone, Noted};
ghost use Rattle.bhs_schedules.specs.Strategies.{Heard};
ghost use Rattle.bhs_protocols.specs.Halves as specs;

use crate::shuttle::{left_in, other_in, right_in, text_by};
use bhs_model::{Command, Reply};
use bhs_schedules::Step;
use std::alloc::{AllocError, Global};

/// The phase of an agent, with its number of steps from the home base and the port by which it goes on.
#[derive(Clone, Copy, Debug, PartialEq, Eq)]
pub enum Phase {
    /// It has not entered.
    Begins,
    /// It goes out on its own side, and is at a safe node.
    GoesOut { steps: u16, port: u16 },
    /// It goes out on its own side, and is on a safe link.
    Leaves { steps: u16 },
    /// It is on the link ahead of its last safe node.
    Tries,
    /// It has come out to a new node.
    Turns { port: u16 },
    /// The agent returns from the new node and is on the link.
    Returns,
    /// It is at its last safe node, and writes that the next one is safe.
    Writes { port: u16 },
    /// It has explored its part, goes home on its own side, and is at a node.
    GoesHome { steps: u16, port: u16 },
    /// It has explored its part, goes home on its own side, and is on a link.
    NearsHome { steps: u16 },
    /// The agent follows the opposite side and is at a node before a safe link.
    Follows { steps: u16, port: u16 },
    /// The agent follows the opposite side and is on a link.
    Passes { steps: u16 },
    /// It is at the last safe node of the other side, and divides what is left.
    Tells { steps: u16, port: u16 },
    /// The agent walks home on the opposite side and is at a node.
    ComesHome { steps: u16, port: u16 },
    /// The agent walks home on the opposite side and is on a link.
    NearsBack { steps: u16 },
    /// It has accused.
    Ends,
}

/// The side that an agent explores, by the port of the home base, how many nodes of it are safe, how many of the other
/// side were when they divided, how far the agent is to explore, what the whiteboard said of both sides that it read
/// last, and what it is about.
#[derive(Clone, Copy, Debug, PartialEq, Eq)]
pub struct Memory {
    pub side: u16,
    pub mine: u16,
    pub theirs: u16,
    pub target: u16,
    pub own: u16,
    pub other: u16,
    pub phase: Phase,
}

/// What an agent does next on a ring of this number of nodes.
pub fn does(alloc: Global, nodes: u16, memory: Memory) -> Result<Step, AllocError>
    requires mine { memory.mine < 4094 }
    requires own { memory.own < 4096 }
    requires other { memory.other < 4096 }
    ensures { IfOk result (λ step. step ≡ specs.does_in nodes memory memory.phase) }
{
    match memory.phase {
        Phase::Begins => Ok(Step::Says(Command::Enter)),
        Phase::GoesOut { steps, port } => Ok(Step::Says(onward(nodes, memory, steps, port))),
        Phase::Turns { port } => Ok(Step::Says(Command::Depart { port })),
        Phase::Writes { port: _ } => {
            let expect = text_by(alloc, memory.side, memory.own, memory.other)?;
            let put = text_by(alloc, memory.side, 1, memory.other)?;
            Ok(Step::Says(Command::Write { expect, put }))
        }
        Phase::GoesHome { steps: _, port } => Ok(Step::Says(Command::Depart { port })),
        Phase::Follows { steps: _, port } => Ok(Step::Says(Command::Depart { port })),
        Phase::Tells { steps, port } => tells(alloc, nodes, memory, steps, port),
        Phase::ComesHome { steps: _, port } => Ok(Step::Says(Command::Depart { port })),
        Phase::Leaves { steps: _ } => Ok(Step::Stops),
        Phase::Tries => Ok(Step::Stops),
        Phase::Returns => Ok(Step::Stops),
        Phase::NearsHome { steps: _ } => Ok(Step::Stops),
        Phase::Passes { steps: _ } => Ok(Step::Stops),
        Phase::NearsBack { steps: _ } => Ok(Step::Stops),
        Phase::Ends => Ok(Step::Stops),
    }
}

// Goes on, or back home once its part is explored, or accuses the link ahead if that is all that is left.
fn onward(nodes: u16, memory: Memory, steps: u16, port: u16) -> Command
    ensures { specs.says result ≡ specs.does_in nodes memory (specs.out_at steps port) }
{
    if steps == memory.mine && memory.mine == memory.target {
        if left_by(nodes, memory.mine, memory.theirs) == 1 {
            Command::Accuse { port }
        } else {
            Command::Depart {
                port: 1u16.saturating_sub(port),
            }
        }
    } else {
        Command::Depart { port }
    }
}

// Divides what is left, or accuses the link ahead if that is all that is left.
fn tells(
    alloc: Global,
    nodes: u16,
    memory: Memory,
    steps: u16,
    port: u16,
) -> Result<Step, AllocError>
    requires mine { memory.mine < 4094 }
    requires own { memory.own < 4096 }
    requires other { memory.other < 4096 }
    ensures { IfOk result (λ step. step ≡ specs.does_in nodes memory (specs.tells_at steps port)) }
{
    if left_by(nodes, memory.mine, steps) == 1 {
        return Ok(Step::Says(Command::Accuse { port }));
    }
    let expect = text_by(alloc, memory.side, memory.own, memory.other)?;
    let put = text_by(alloc, memory.side, memory.own, memory.mine + 2)?;
    Ok(Step::Says(Command::Write { expect, put }))
}

// How many nodes are left, with these numbers of safe nodes on the two sides.
fn left_by(nodes: u16, mine: u16, theirs: u16) -> u16
    ensures { result ≡ specs.left_by nodes mine theirs }
{
    nodes
        .saturating_sub(1)
        .saturating_sub(mine)
        .saturating_sub(theirs)
}

/// What an agent holds after a reply.
pub fn after(nodes: u16, memory: Memory, reply: &Reply) -> Memory
    requires mine { memory.mine < 4094 }
    requires steps { specs.steps_of memory.phase < 4096 }
    ensures { result ≡ specs.after_in nodes memory memory.phase (Heard reply.now) }
{
    match reply {
        Reply::Here {
            ports,
            came: Some(label),
            board,
        } => arrived(nodes, memory, *ports, *label, board.as_str().as_bytes()),
        Reply::Here {
            ports,
            came: None,
            board,
        } => entered(nodes, memory, *ports, board.as_str().as_bytes()),
        Reply::Written => written(nodes, memory),
        Reply::Changed { board } => changed(nodes, memory, board.as_str().as_bytes()),
        Reply::Gone => gone(nodes, memory),
        Reply::Noted => noted(nodes, memory),
        Reply::Bye | Reply::Over => memory,
        Reply::No(_) => memory,
    }
}

fn entered(nodes: u16, memory: Memory, ports: u16, board: &[u8]) -> Memory
    ensures { result ≡ specs.after_in nodes memory memory.phase (Heard (Here ports None board.now)) }
{
    match memory.phase {
        Phase::Begins => in_phase(
            memory,
            Phase::GoesOut {
                steps: 0,
                port: memory.side,
            },
        ),
        Phase::GoesOut { steps: _, port: _ } => memory,
        Phase::Leaves { steps: _ } => memory,
        Phase::Tries => memory,
        Phase::Turns { port: _ } => memory,
        Phase::Returns => memory,
        Phase::Writes { port: _ } => memory,
        Phase::GoesHome { steps: _, port: _ } => memory,
        Phase::NearsHome { steps: _ } => memory,
        Phase::Follows { steps: _, port: _ } => memory,
        Phase::Passes { steps: _ } => memory,
        Phase::Tells { steps: _, port: _ } => memory,
        Phase::ComesHome { steps: _, port: _ } => memory,
        Phase::NearsBack { steps: _ } => memory,
        Phase::Ends => memory,
    }
}

fn arrived(nodes: u16, memory: Memory, ports: u16, label: u16, board: &[u8]) -> Memory
    requires mine { memory.mine < 4094 }
    requires steps { specs.steps_of memory.phase < 4096 }
    ensures { result ≡ specs.after_in nodes memory memory.phase (Heard (Here ports (Some label) board.now)) }
{
    match memory.phase {
        Phase::Begins => in_phase(
            memory,
            Phase::GoesOut {
                steps: 0,
                port: memory.side,
            },
        ),
        Phase::Leaves { steps } => in_phase(
            memory,
            Phase::GoesOut {
                steps: steps + 1,
                port: 1u16.saturating_sub(label),
            },
        ),
        Phase::Tries => in_phase(memory, Phase::Turns { port: label }),
        Phase::Returns => learned(nodes, memory, label, board),
        Phase::NearsHome { steps } => came_near(memory, steps.saturating_sub(1), label, board),
        Phase::Passes { steps } => follows(memory, steps + 1, 1u16.saturating_sub(label), board),
        Phase::NearsBack { steps } => goes_back(
            memory,
            steps.saturating_sub(1),
            1u16.saturating_sub(label),
        ),
        Phase::GoesOut { steps: _, port: _ } => memory,
        Phase::Turns { port: _ } => memory,
        Phase::Writes { port: _ } => memory,
        Phase::GoesHome { steps: _, port: _ } => memory,
        Phase::Follows { steps: _, port: _ } => memory,
        Phase::Tells { steps: _, port: _ } => memory,
        Phase::ComesHome { steps: _, port: _ } => memory,
        Phase::Ends => memory,
    }
}

fn written(nodes: u16, memory: Memory) -> Memory
    requires { memory.mine < 4094 }
    ensures { result ≡ specs.after_in nodes memory memory.phase (Heard Written) }
{
    match memory.phase {
        Phase::Writes { port } => Memory {
            side: memory.side,
            mine: memory.mine + 1,
            theirs: memory.theirs,
            target: memory.target,
            own: memory.own,
            other: memory.other,
            phase: Phase::GoesOut {
                steps: memory.mine,
                port,
            },
        },
        Phase::Tells { steps, port } => divided(nodes, memory, steps, port),
        Phase::Begins => memory,
        Phase::GoesOut { steps: _, port: _ } => memory,
        Phase::Leaves { steps: _ } => memory,
        Phase::Tries => memory,
        Phase::Turns { port: _ } => memory,
        Phase::Returns => memory,
        Phase::GoesHome { steps: _, port: _ } => memory,
        Phase::NearsHome { steps: _ } => memory,
        Phase::Follows { steps: _, port: _ } => memory,
        Phase::Passes { steps: _ } => memory,
        Phase::ComesHome { steps: _, port: _ } => memory,
        Phase::NearsBack { steps: _ } => memory,
        Phase::Ends => memory,
    }
}

fn changed(nodes: u16, memory: Memory, board: &[u8]) -> Memory
    requires { memory.mine < 4094 }
    ensures { result ≡ specs.after_in nodes memory memory.phase (Heard (Changed board.now)) }
{
    match memory.phase {
        Phase::Writes { port } => learned(nodes, memory, port, board),
        Phase::Tells { steps, port } => follows(memory, steps, port, board),
        Phase::Begins => memory,
        Phase::GoesOut { steps: _, port: _ } => memory,
        Phase::Leaves { steps: _ } => memory,
        Phase::Tries => memory,
        Phase::Turns { port: _ } => memory,
        Phase::Returns => memory,
        Phase::GoesHome { steps: _, port: _ } => memory,
        Phase::NearsHome { steps: _ } => memory,
        Phase::Follows { steps: _, port: _ } => memory,
        Phase::Passes { steps: _ } => memory,
        Phase::ComesHome { steps: _, port: _ } => memory,
        Phase::NearsBack { steps: _ } => memory,
        Phase::Ends => memory,
    }
}

fn gone(nodes: u16, memory: Memory) -> Memory
    ensures { result ≡ specs.after_in nodes memory memory.phase (Heard Gone) }
{
    match memory.phase {
        Phase::GoesOut { steps, port: _ } => left_from(memory, steps),
        Phase::Turns { port: _ } => in_phase(memory, Phase::Returns),
        Phase::GoesHome { steps, port: _ } => in_phase(memory, Phase::NearsHome { steps }),
        Phase::Follows { steps, port: _ } => in_phase(memory, Phase::Passes { steps }),
        Phase::ComesHome { steps, port: _ } => in_phase(memory, Phase::NearsBack { steps }),
        Phase::Begins => memory,
        Phase::Leaves { steps: _ } => memory,
        Phase::Tries => memory,
        Phase::Returns => memory,
        Phase::Writes { port: _ } => memory,
        Phase::NearsHome { steps: _ } => memory,
        Phase::Passes { steps: _ } => memory,
        Phase::Tells { steps: _, port: _ } => memory,
        Phase::NearsBack { steps: _ } => memory,
        Phase::Ends => memory,
    }
}

fn noted(nodes: u16, memory: Memory) -> Memory
    ensures { result ≡ specs.after_in nodes memory memory.phase (Heard Noted) }
{
    match memory.phase {
        Phase::GoesOut { steps: _, port: _ } => in_phase(memory, Phase::Ends),
        Phase::Tells { steps: _, port: _ } => in_phase(memory, Phase::Ends),
        Phase::Begins => memory,
        Phase::Leaves { steps: _ } => memory,
        Phase::Tries => memory,
        Phase::Turns { port: _ } => memory,
        Phase::Returns => memory,
        Phase::Writes { port: _ } => memory,
        Phase::GoesHome { steps: _, port: _ } => memory,
        Phase::NearsHome { steps: _ } => memory,
        Phase::Follows { steps: _, port: _ } => memory,
        Phase::Passes { steps: _ } => memory,
        Phase::ComesHome { steps: _, port: _ } => memory,
        Phase::NearsBack { steps: _ } => memory,
        Phase::Ends => memory,
    }
}

fn left_from(memory: Memory, steps: u16) -> Memory
    ensures { result ≡ specs.left_from memory steps }
{
    if steps == memory.mine && memory.mine == memory.target {
        in_phase(memory, Phase::NearsHome { steps })
    } else if steps == memory.mine {
        in_phase(memory, Phase::Tries)
    } else {
        in_phase(memory, Phase::Leaves { steps })
    }
}

// It has read the whiteboard of its last safe node.
fn learned(nodes: u16, memory: Memory, port: u16, board: &[u8]) -> Memory
    requires { memory.mine < 4094 }
    ensures { result ≡ specs.learned nodes memory port board.now }
{
    let own = own_in(memory.side, board);
    Memory {
        side: memory.side,
        mine: memory.mine,
        theirs: theirs_by(memory.theirs, own),
        target: target_by(nodes, memory.mine, memory.target, own),
        own,
        other: other_in(memory.side, board),
        phase: Phase::Writes { port },
    }
}

fn target_by(nodes: u16, mine: u16, target: u16, mark: u16) -> u16
    requires { mine < 4094 }
    ensures { result ≡ specs.target_by nodes mine target mark }
{
    if mark < 2 {
        target
    } else {
        mine + nodes.saturating_sub(mine).saturating_sub(mark - 2) / 2
    }
}

fn theirs_by(theirs: u16, mark: u16) -> u16
    ensures { result ≡ specs.theirs_by theirs mark }
{
    if mark < 2 { theirs } else { mark - 2 }
}

// It has read a whiteboard of the other side, and goes on if the link ahead is safe.
fn follows(memory: Memory, steps: u16, port: u16, board: &[u8]) -> Memory
    ensures { result ≡ specs.follows memory steps port board.now }
{
    let other = other_in(memory.side, board);
    let phase = if other == 1 {
        Phase::Follows { steps, port }
    } else {
        Phase::Tells { steps, port }
    };
    Memory {
        side: memory.side,
        mine: memory.mine,
        theirs: memory.theirs,
        target: memory.target,
        own: own_in(memory.side, board),
        other,
        phase,
    }
}

fn came_near(memory: Memory, steps: u16, label: u16, board: &[u8]) -> Memory
    ensures { result ≡ specs.came_near memory steps label board.now }
{
    if steps == 0 {
        follows(memory, 0, 1u16.saturating_sub(label), board)
    } else {
        in_phase(
            memory,
            Phase::GoesHome {
                steps,
                port: 1u16.saturating_sub(label),
            },
        )
    }
}

fn goes_back(memory: Memory, steps: u16, port: u16) -> Memory
    ensures { result ≡ specs.goes_back memory steps port }
{
    if steps == 0 {
        in_phase(memory, Phase::GoesOut { steps: 0, port })
    } else {
        in_phase(memory, Phase::ComesHome { steps, port })
    }
}

fn divided(nodes: u16, memory: Memory, steps: u16, port: u16) -> Memory
    requires { memory.mine < 4094 }
    ensures { result ≡ specs.divided nodes memory steps port }
{
    let with = Memory {
        side: memory.side,
        mine: memory.mine,
        theirs: steps,
        target: memory.mine + left_by(nodes, memory.mine, steps) / 2,
        own: memory.own,
        other: memory.other,
        phase: memory.phase,
    };
    goes_back(with, steps, 1u16.saturating_sub(port))
}

fn in_phase(memory: Memory, phase: Phase) -> Memory
    ensures { result ≡ record memory { phase = phase } }
{
    Memory {
        side: memory.side,
        mine: memory.mine,
        theirs: memory.theirs,
        target: memory.target,
        own: memory.own,
        other: memory.other,
        phase,
    }
}

// What a whiteboard says of an agent's own side.
fn own_in(side: u16, text: &[u8]) -> u16
    ensures { result ≡ specs.own_in side text.now }
{
    if side == 0 {
        right_in(text)
    } else {
        left_in(text)
    }
}
