//! An agent's part of a log, compared with its strategy.

ghost use Rattle.std.specs.Prelude.{◌≡◌, [], IfOk};
ghost use Rattle.bhs_attest.specs.Attestations.{Attests};
ghost use Rattle.bhs_attest.specs.Laws.{HasEnded};

use crate::followers::Follower;
use crate::turns::{Turn, take_turn};
use bhs_agents::{PlayLimits, Searcher, SearcherFault};
use bhs_match::{Match, Sealed};
use bhs_net::Memory;
use bhs_schedules::Step;
use bhs_world::SetupFault;
use std::alloc::Global;

/// What comes of comparing an agent's part of a log with its strategy.
#[derive(Debug, PartialEq, Eq, Drop)]
pub enum Attestation {
    /// The agent did what its strategy says, and nothing else. It woke this often, and at most this often in a row.
    Follows { wake_ups: u64, in_a_row: u64 },
    /// The event at this place of the log is the agent's, and its strategy takes this step instead.
    Differs { place: usize, step: Step },
    /// Before the event at this place the agent takes more turns than are allowed.
    Tires { place: usize },
}

/// Compares an agent's part of the log of a match that has ended with its strategy, up to the first difference.
///
/// Wherever the log has a command of the agent, the agent takes turns until its strategy says a command that the match
/// does not refuse. It wakes at most as often in a row as the limits allow.
pub fn attest<S: Searcher + Drop>(
    alloc: Global,
    sealed: &Sealed,
    agent: u16,
    searcher: S,
    limits: PlayLimits,
) -> Result<Attestation, SearcherFault>
    ensures { IfOk result (λ attestation. Attests (record {
      agent = agent;
      strategy = S.strategy searcher;
      wakeups = limits.spurious_wakeups;
    }) sealed.now attestation) }
{
    let mut game = match begun(alloc, sealed) {
        Ok(game) => game,
        Err(Memory) => return Err(SearcherFault::Memory),
    };
    let mut follower = Follower::new(searcher, limits.spurious_wakeups)?;
    let log = sealed.log();
    let mut place = 0;
    for spent in 0..limits.turns {
        if log.len() - place <= 1 {
            return Ok(Attestation::Follows {
                wake_ups: follower.woken,
                in_a_row: follower.longest,
            });
        }
        let event = &log[place].event;
        let turn = match take_turn(&mut game, agent, event, &follower.step, &follower.wake_ups) {
            Ok(turn) => turn,
            Err(Memory) => return Err(SearcherFault::Memory),
        };
        match turn {
            Turn::Idles(news) => follower = follower.observe(alloc, Some(news))?,
            Turn::Passes(news) => {
                follower = follower.observe(alloc, news)?;
                place += 1;
            }
            Turn::Differs => {
                return Ok(Attestation::Differs {
                    place,
                    step: follower.step,
                });
            }
        }
    }
    Ok(Attestation::Tires { place })
}

// Begins a match anew: the same network and setup, and an empty log.
fn begun(alloc: Global, sealed: &Sealed) -> Result<Match, Memory>
    ensures { IfOk result (λ game. game ≡ record { net = sealed.now.net; setup = sealed.now.setup; log = [] }) }
{
    let net = sealed.net();
    // The proof needs that the ports of the network are labelled.
    let _nodes = net.nodes();
    match Match::new(alloc, net.try_clone(alloc)?, sealed.setup().try_clone()?) {
        Ok(game) => Ok(game),
        Err(SetupFault::Memory) => Err(Memory),
        Err(_) => unreachable!(),
    }
}

/// Each value of the type `Sealed` is a match that has ended, as the laws say. This changes nothing.
pub fn each_match_has_ended(sealed: &Sealed)
    ensures { HasEnded sealed.now }
{
    let _setup = sealed.setup();
    let _log = sealed.log();
}
