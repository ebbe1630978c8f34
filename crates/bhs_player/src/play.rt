//! Playing an agent over a connection.

ghost use Rattle.std.specs.Prelude.{IfErr, IfOk};
ghost use Rattle.bhs_client.specs.Talks.{Breaks, Ends};
ghost use Rattle.bhs_player.specs.Agents.{strategy_played};
ghost use Rattle.bhs_player.specs.Wires.{IsCut, IsHeard, IsSaid, IsUnheard};

use crate::agents::PlayedAgent;
use crate::wire::Wire;
use bhs_agents::PlayLimits;
use bhs_client::{PlayEnd, PlayFault, play};
use bhs_stream::{Input, Output};

// The most observations of an agent: many more than there are in any match of a file.
const MAX_TURNS: u64 = 1_099_511_627_776;

/// Plays an agent until it has accused a link or its match is over. Its lines are those of its strategy, and it never
/// wakes more than `spurious_wakeups` + 1 times in a row. An agent that breaks off has written the lines of its
/// strategy so far, and perhaps a prefix of the next one.
pub fn played<R: Input + Drop, W: Output + Drop>(
    wire: &mut Wire<'_, R, W>,
    key: &str,
    spurious_wakeups: u32,
    agent: &mut PlayedAgent,
) -> Result<PlayEnd, PlayFault>
    ensures ended { IfOk result (λ end. Ends (IsSaid W.takes W.flushes) (IsHeard R.gives) spurious_wakeups
        (strategy_played agent.old) key.now wire.old end wire.new) }
    ensures broken { IfErr result (λ fault. Breaks (IsSaid W.takes W.flushes) (IsHeard R.gives)
        (IsCut W.takes W.flushes) IsUnheard spurious_wakeups (strategy_played agent.old) key.now
        wire.old fault wire.new) }
{
    let alloc = wire.rt.alloc();
    let limits = PlayLimits {
        turns: MAX_TURNS,
        spurious_wakeups,
    };
    match agent {
        PlayedAgent::Protocol(agent) => play(alloc, wire, agent, key, limits),
        PlayedAgent::Chart(agent) => play(alloc, wire, agent, key, limits),
        PlayedAgent::Module(agent) => play(alloc, wire, agent, key, limits),
    }
}
