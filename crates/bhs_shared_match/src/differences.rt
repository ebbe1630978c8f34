//! Where passes and the log of a match differ.

ghost use Rattle.std.specs.Prelude.{◌≡◌, ◌<◌, Some, None, IfSome, MatchOption};
ghost use Rattle.bhs_shared_match.specs.Comparing.{entry_of};
ghost use Rattle.bhs_shared_match.specs.Saying.{IsSaid};
ghost use Rattle.bhs_shared_match.specs.Settling.{lesser, has_pass, is_missing, NoneMissing, IsLeastMissing};
ghost use Rattle.bhs_shared_match.specs.Settling.{IsLeast, commands_of, arrivals_of};

use crate::pass::Pass;
use bhs_match::Match;
use bhs_model::{Command, Event, Kept, MAX_AGENTS, Mark};

/// An agent, and an index into its commands or arrivals.
pub(crate) type AgentIndex = (u16, usize);

// Returns the lesser of a difference and of an agent's index, where either may be absent.
fn lesser(best: Option<AgentIndex>, agent: u16, index: Option<usize>) -> Option<AgentIndex>
    ensures { result ≡ lesser best agent index }
{
    match (best, index) {
        (best, None) => best,
        (None, Some(index)) => Some((agent, index)),
        (Some(best), Some(index)) => if agent < best.0 || (agent == best.0 && index < best.1) {
            Some((agent, index))
        } else {
            Some(best)
        },
    }
}

// Returns whether one of these passes belongs to the agent.
fn has_pass(passes: &[Pass], agent: u16) -> bool
    ensures { result ≡ has_pass passes.now agent }
{
    passes.iter().any(|pass| pass.agent() == agent)
}

// Whether the pass of an agent was claimed and does not come back.
fn is_missing(left: &[Option<Pass>], passes: &[Pass], agent: u16) -> bool
    ensures { result ≡ is_missing left.now passes.now agent }
{
    match left.get(usize::from(agent)) {
        Some(None) => !has_pass(passes, agent),
        _ => false,
    }
}

/// The least agent, of the first `agents`, whose pass was claimed and is not among those handed in. `left` are the
/// passes that nobody claimed, by agent. Takes no memory.
pub(crate) fn missing(agents: u16, left: &[Option<Pass>], passes: &[Pass]) -> Option<u16>
    ensures least { MatchOption result (NoneMissing agents left.now passes.now) (IsLeastMissing left.now passes.now) }
    ensures agent { IfSome result (λ agent. agent < agents) }
{
    for agent in 0..agents {
        if is_missing(left, passes, agent) {
            return Some(agent);
        }
    }
    None
}

/// The least agent and index at which the receipts of a pass, or none for an agent without a pass, are not the agent's
/// heard commands in the log of a match; None if each pass has the agent's heard commands, each once, in order, with
/// places and replies, and an agent without a pass has none. Takes no memory; goes over the log once.
pub(crate) fn first_difference(play: &Match, passes: &[Pass]) -> Option<AgentIndex>
    ensures { IsLeast (commands_of play.now passes.now) result }
{
    let log = play.log();
    // Every match has a setup that is within the limits: no agent is past the places of `heard`.
    let _setup = play.setup();
    let mut heard = [0; MAX_AGENTS as usize];
    let mut best = None;
    for (place, one) in log.iter().enumerate() {
        let Event::Tell { agent, command } = &one.event else {
            continue;
        };
        let index = heard[usize::from(*agent)];
        if !is_said(passes, *agent, index, log, place, command, &one.mark) {
            best = lesser(best, *agent, Some(index));
        }
        heard[usize::from(*agent)] = index + 1;
    }
    for pass in passes {
        let index = heard.get(usize::from(pass.agent())).copied().unwrap_or(0);
        if index < pass.commands_heard() {
            best = lesser(best, pass.agent(), Some(index));
        }
    }
    best
}

// Returns whether an agent has a pass and all its passes have the log's command at this index.
fn is_said(
    passes: &[Pass],
    agent: u16,
    index: usize,
    log: &[Kept],
    place: usize,
    command: &Command,
    mark: &Option<Mark>,
) -> bool
    ensures { IsSaid result passes.now agent index (entry_of log.now place command.now mark.now) }
{
    let mut has_pass = false;
    for pass in passes {
        if pass.agent() != agent {
            continue;
        }
        if !pass.says(index, log, place, command, mark) {
            return false;
        }
        has_pass = true;
    }
    has_pass
}

/// The least agent and index at which an arrival of a pass is not the agent's arrival of that index in the log of a
/// match; None if the arrivals of each pass are the agent's first ones, with places and replies. Takes no memory.
pub(crate) fn first_stray(play: &Match, passes: &[Pass]) -> Option<AgentIndex>
    ensures { IsLeast (arrivals_of play.now passes.now) result }
{
    let mut best = None;
    for pass in passes {
        best = lesser(best, pass.agent(), pass.stray(play));
    }
    best
}
