//! Making a contest of the matches of a tournament.

ghost use Rattle.std.specs.Prelude.{◌≡◌, [], ◌∷◌, ◌++◌, IfOk, length, map};
ghost use Rattle.bhs_deliveries.specs.Dealer.{dealer_at};
ghost use Rattle.bhs_setups.specs.Fresh.{AreFresh};
ghost use Rattle.bhs_contest.specs.Hosting.{dealers_of, given_of, givens_of, number_at};

use bhs_deliveries::Dealer;
use bhs_model::{SEED_BYTES, Text};
use bhs_net::Memory;
use bhs_server::Contest;
use bhs_setups::{Lineup, Ready};
use bhs_shared_match::SharedMatch;
use bhs_time::ScheduleKind;
use std::alloc::Global;

/// A contest that is ready to be served, and the teams of its matches.
#[derive(Drop)]
pub struct Hosted {
    /// The teams, by the numbers of their matches.
    pub teams: Vec<Text>,
    pub contest: Contest,
}

/// The matches of a tournament under locks, each with the dealer of its own stream. Nothing has happened in them. Their
/// turns are of the tournament's schedule, and let nobody arrive over held links.
pub fn contest_of(alloc: Global, lineup: Lineup) -> Result<Hosted, Memory>
    requires { AreFresh lineup.ready.items }
    ensures teams { IfOk result (λ hosted. hosted.teams.items ≡ map (λ ready. ready.team) lineup.ready.items) }
    ensures shared_matches { IfOk result (λ hosted. hosted.contest.shared_matches.items
        ≡ givens_of lineup.schedule 0 lineup.ready.items) }
    ensures dealers { IfOk result (λ hosted. hosted.contest.dealers.items
        ≡ dealers_of lineup.seed 0 lineup.ready.items) }
    ensures keys { IfOk result (λ hosted. hosted.contest.keys ≡ lineup.keys) }

    // Each match has its dealer.
    ensures paired { IfOk result (λ hosted. length hosted.contest.dealers.items
        ≡ length hosted.contest.shared_matches.items) }
{
    let Lineup {
        seed,
        schedule,
        ready,
        keys,
    } = lineup;
    let (teams, shared_matches, dealers) = rooms(alloc, ready.len())?;
    let mut hosted = Hosted {
        teams,
        contest: Contest {
            shared_matches,
            dealers,
            keys,
        },
    };
    for one in ready {
        hosted.add(alloc, seed, &schedule, one)?;
    }
    Ok(hosted)
}

// Empty vectors with room for the teams, the shared matches and the dealers of this number of matches.
fn rooms(alloc: Global, games: usize) -> Result<(Vec<Text>, Vec<SharedMatch>, Vec<Dealer>), Memory>
    ensures { IfOk result (λ rooms. (rooms.0.items ≡ []) × (rooms.1.items ≡ []) × (rooms.2.items ≡ [])) }
{
    let dealers = Vec::with_capacity(alloc, games)?;
    let teams = Vec::with_capacity(alloc, games)?;
    let shared_matches = Vec::with_capacity(alloc, games)?;
    Ok((teams, shared_matches, dealers))
}

impl Hosted {
    // Puts a match under its lock, with the dealer that has the stream of its number.
    fn add(
        &mut self,
        alloc: Global,
        seed: [u8; SEED_BYTES],
        schedule: &ScheduleKind,
        ready: Ready,
    ) -> Result<(), Memory>
        requires { ready.game.log ≡ [] }
        ensures teams { IfOk result (λ _. self.new.teams.items ≡ self.old.teams.items ++ ready.team ∷ []) }
        ensures shared_matches { IfOk result (λ _. self.new.contest.shared_matches.items
            ≡ self.old.contest.shared_matches.items
            ++ given_of schedule.now (length self.old.contest.shared_matches.items) ready ∷ []) }
        ensures dealers { IfOk result (λ _. self.new.contest.dealers.items ≡ self.old.contest.dealers.items
            ++ dealer_at seed (length self.old.contest.dealers.items) 0 ∷ []) }
        ensures keys { IfOk result (λ _. self.new.contest.keys ≡ self.old.contest.keys) }
    {
        let Ready { team, game, held } = ready;
        let number = number_at(self.contest.shared_matches.len());
        let shared_match = SharedMatch::new(alloc, number, game, held, *schedule)?;
        self.contest.shared_matches.push(shared_match)?;
        self.teams.push(team)?;
        let stream = self.contest.dealers.len() as u64;
        self.contest.dealers.push(Dealer::new(seed, stream))?;
        Ok(())
    }
}

// The number of the match at a place of a lineup.
fn number_at(place: usize) -> u32
    ensures { result ≡ number_at place }
{
    u32::try_from(place).unwrap_or(u32::MAX)
}
