//! Answering a command that is heard.

ghost use Rattle.std.specs.Prelude.{◌≡◌, ◌<◌, ◌≤◌, ◌^◌, nat_lt, IsTrue, length};
ghost use Rattle.bhs_net.specs.Network.{nodes_of};
ghost use Rattle.bhs_model.specs.Views.{counts};
ghost use Rattle.bhs_model.specs.Replying.{accepts};
ghost use Rattle.bhs_model.specs.Setups.{world_of};
ghost use Rattle.bhs_state.specs.Agents.{position_of};
ghost use Rattle.bhs_model.specs.Standings.{standing_at};
ghost use Rattle.bhs_world.specs.Steps.{refusal_of, agent_told, mark_here, mark_of_swap, swap_at, board_written};
ghost use Rattle.bhs_world.specs.Steps.{boards_told, mark_told, IsPlaced, shows_from};

use bhs_model::{Command, Kept, MAX_QUOTA, Mark, Setup, Why, text_at};
use bhs_net::Net;
use bhs_state::{Agent, Board, Standing, Swap};

/// Why a command is not heard of an agent in this standing; `room` says that its quota is not used up.
pub(crate) fn refusal(standing: Standing, room: bool, command: &Command) -> Option<Why>
    ensures { result ≡ refusal_of (standing_at (position_of standing)) room command.now }
{
    match (standing, command) {
        (Standing::Outside, Command::Enter) => None,
        (Standing::Outside, _) => Some(Why::Outside),
        (_, Command::Enter) => Some(Why::Twice),
        (Standing::Ended, _) => Some(Why::Ended),
        (_, Command::Leave) => None,
        _ => if room { None } else { Some(Why::Spent) },
    }
}

// Whether a heard command counts against the quota.
fn counts(command: &Command) -> bool
    ensures { result ≡ counts command.now }
{
    !matches!(command, Command::Enter | Command::Leave)
}

/// Moves an agent by a command that is heard.
pub(crate) fn advance(agent: &mut Agent, net: &Net, setup: &Setup, command: &Command)
    requires placed { IsPlaced net.now agent.old.position }
    requires heard { IsTrue (accepts (standing_at agent.old.position)
        (nat_lt agent.old.used setup.now.quota) command.now) }
    requires quota { setup.now.quota ≤ MAX_QUOTA }
    ensures { agent.new ≡ agent_told (world_of net.now setup.now) agent.old command.now }
{
    if counts(command) {
        agent.count();
    }
    match (agent.standing(), command) {
        (_, Command::Enter) => agent.enter(setup.home),
        (_, Command::Leave) => agent.end(),
        (Standing::Present { node, .. }, Command::Depart { port }) => {
            if *port < net.degree(node) {
                agent.depart(node, *port);
            }
        }
        (Standing::Present { node, .. }, Command::Accuse { port }) => {
            if *port < net.degree(node) {
                agent.end();
            }
        }
        _ => {}
    }
}

/// What an agent sees at a node.
pub(crate) fn here(net: &Net, boards: &[Board], setup: &Setup, node: u16, came: Option<u16>) -> Mark
    requires node { node < nodes_of net.now }
    requires boards { length boards.now ≡ nodes_of net.now }
    ensures { result ≡ mark_here (world_of net.now setup.now) boards.now node came }
{
    Mark::Here {
        ports: net.degree(node),
        came,
        board: boards[usize::from(node)].last(),
    }
}

// Writes on a whiteboard. The event will stand next in the log.
fn write(board: &mut Board, log: &[Kept], expect: &str, put: &str) -> Mark
    requires { length log.now < 2 ^ 32 }
    ensures mark { result ≡ mark_of_swap (swap_at log.now board.old expect.now put.now) board.old.last }
    ensures board { board.new ≡ board_written log.now board.old expect.now put.now }
{
    let last = board.last();
    match board.swap(text_at(log, last), expect, put, log.len() as u32) {
        Swap::Long => Mark::No(Why::Long),
        Swap::Differs => Mark::Changed { board: last },
        Swap::Took => Mark::Written,
    }
}

/// Answers a command that is heard of an agent in this standing, and writes it on the whiteboard.
pub(crate) fn answer(
    net: &Net,
    setup: &Setup,
    boards: &mut [Board],
    log: &[Kept],
    standing: Standing,
    command: &Command,
) -> Mark
    requires room { length log.now < 2 ^ 32 }
    requires home { setup.now.home < nodes_of net.now }
    requires placed { IsPlaced net.now (position_of standing) }
    requires boards { length boards.old ≡ nodes_of net.now }
    ensures mark { result ≡ mark_told (world_of net.now setup.now) log.now boards.old
        (position_of standing) command.now }
    ensures boards { boards.new ≡ boards_told log.now boards.old (position_of standing) command.now }
{
    match (standing, command) {
        (_, Command::Leave) => Mark::Bye,
        (_, Command::Enter) => here(net, boards, setup, setup.home, None),
        (Standing::Present { node, came }, Command::Look) => here(net, boards, setup, node, came),
        (Standing::Present { node, .. }, Command::Write { expect, put }) => {
            write(
                &mut boards[usize::from(node)],
                log,
                expect.as_str(),
                put.as_str(),
            )
        }
        (Standing::Present { node, .. }, Command::Depart { port }) => {
            if *port < net.degree(node) {
                Mark::Gone
            } else {
                Mark::No(Why::Port)
            }
        }
        (Standing::Present { node, .. }, Command::Accuse { port }) => {
            if *port < net.degree(node) {
                Mark::Noted
            } else {
                Mark::No(Why::Port)
            }
        }
        (Standing::Present { .. }, Command::Bad) => Mark::No(Why::Line),
        _ => Mark::No(Why::Away),
    }
}

/// Whether the answer to a command that is heard of an agent in this standing speaks of a whiteboard.
pub(crate) fn shows_from(limit: u16, standing: Standing, command: &Command) -> bool
    ensures { result ≡ shows_from limit (position_of standing) command.now }
{
    match (standing, command) {
        (_, Command::Enter) | (Standing::Present { .. }, Command::Look) => true,
        (Standing::Present { .. }, Command::Write { put, .. }) => put.as_str().len()
            <= usize::from(limit),
        _ => false,
    }
}
