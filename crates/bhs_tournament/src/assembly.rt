//! Putting a tournament and its networks together.

ghost use Rattle.std.specs.Prelude.{ℕ, List, ◌≡◌, ◌<◌, ◌^◌, length, map, option_map, IfOk, Ok, vec_len, IsTrue, Some};
ghost use Rattle.std.specs.List.{zip};
ghost use Rattle.bhs_deliveries.specs.Links.{first_strange};
ghost use Rattle.bhs_world.specs.Faults.{first_fault};
ghost use Rattle.bhs_files.specs.declared.faults.FileFault.TheVariants as faults;
ghost use Rattle.bhs_files.specs.Names.{first_seen, is_among};
ghost use Rattle.bhs_files.specs.Reading.{GivesUnlessMemory};
ghost use Rattle.bhs_setups.specs.Lineups.{contest};
ghost use Rattle.bhs_tournament.specs.KeyTable.{LetsIn};
ghost use Rattle.bhs_files.specs.Tournaments.{plan, planned, key_lists};
ghost use Rattle.bhs_tournament.specs.Lineups.{network_named, setup_of, start_of, begins, of_setup, setup_fault};
ghost use Rattle.bhs_tournament.specs.Lineups.{unless};
ghost use Rattle.bhs_tournament.specs.Lineups.{excess, with_excess, contest_in, all_ready};
ghost use Rattle.bhs_tournament.specs.Passes.{each_in, begun, readied};

use crate::key_table::keys_of;
use bhs_deliveries::{Held, HeldFault};
use bhs_files::{FileFault, Fixture, Tournament};
use bhs_match::Match;
use bhs_model::{SMALL_BOARD, SMALL_QUOTA, Setup, Text};
use bhs_net::Net;
use bhs_setups::{Lineup, Ready};
use bhs_world::SetupFault;
use indexmap::IndexSet;
use std::alloc::{AllocError, Global};

/// Puts a tournament and its networks together. There is one network for each name, in the order of
/// `Tournament::networks`.
///
/// The first fault is told: the setups of the matches in order, then the keys, then the held links of the matches in
/// order. A match has as many agents as keys.
pub fn assemble(
    alloc: Global,
    tournament: Tournament,
    networks: &[Net],
) -> Result<Lineup, FileFault>
    requires { length networks.now ≡ length (first_seen (map (λ fixture. fixture.network) tournament.matches.items)) }
    ensures exact { GivesUnlessMemory contest result (contest_in (plan tournament) networks.now) }

    // Each match is as its file says, on the network of its name, and nothing has happened in it.
    ensures matches { IfOk result (λ lineup. lineup.ready.items ≡ all_ready (plan tournament) networks.now) }

    // Each agent's key lets in that agent, and no other key lets anyone in.
    ensures lets_in { IfOk result (λ lineup. LetsIn (key_lists tournament) lineup.keys) }
{
    let games = games(alloc, &tournament, networks)?;
    let keys = keys_of(alloc, &tournament.matches)?;
    let Tournament {
        seed,
        schedule,
        matches,
    } = tournament;
    Ok(Lineup {
        seed,
        schedule,
        ready: all_ready(alloc, matches, games)?,
        keys,
    })
}

fn games(alloc: Global, tournament: &Tournament, networks: &[Net]) -> Result<Vec<Match>, FileFault>
    requires { length networks.now ≡ length (first_seen
        (map (λ fixture. fixture.network) tournament.now.matches.items)) }
    ensures { GivesUnlessMemory (λ games. games.items) result
        (each_in (begun (λ planned. network_named
        (first_seen (map (λ fixture. fixture.network) tournament.now.matches.items)) networks.now planned.network))
        0 (map planned tournament.now.matches.items)) }
{
    let names = tournament.networks(alloc)?;
    games_on(alloc, &tournament.matches, &names, networks)
}

// The matches before anything happens, each on the network with its name.
fn games_on(
    alloc: Global,
    matches: &[Fixture],
    names: &IndexSet<&str>,
    networks: &[Net],
) -> Result<Vec<Match>, FileFault>
    requires few { length matches.now < 2 ^ 32 }
    requires exact { map (λ name. name.now) names.now.keys
        ≡ first_seen (map (λ fixture. fixture.network) matches.now) }
    requires all { (name : List ℕ) → is_among (map (λ name. name.now) names.now.keys) name
        ≡ is_among (map (λ fixture. fixture.network) matches.now) name }
    requires networks { length networks.now ≡ length names.now.keys }
    ensures { GivesUnlessMemory (λ games. games.items) result
        (each_in (begun (λ planned. network_named
        (first_seen (map (λ fixture. fixture.network) matches.now)) networks.now planned.network))
        0 (map planned matches.now)) }
{
    let mut games = Vec::new(alloc);
    for (game, fixture) in matches.iter().enumerate() {
        let net = network_of(names, networks, fixture.network.as_str());
        games.push(begun(alloc, game as u32, net, fixture)?)?;
    }
    Ok(games)
}

// The network with a name.
fn network_of<'a>(names: &IndexSet<&str>, networks: &'a [Net], name: &str) -> &'a Net
    requires among { IsTrue (is_among (map (λ one. one.now) names.now.keys) name.now) }
    requires all { length networks.now ≡ length names.now.keys }
    ensures { result.now ≡ network_named (map (λ one. one.now) names.now.keys) networks.now name.now }
{
    match names.get_index_of(name) {
        Some(place) => &networks[place],
        None => unreachable!(),
    }
}

fn setup_of(fixture: &Fixture) -> Result<Setup, AllocError>
    ensures { IfOk result (λ setup. setup ≡ setup_of (planned fixture.now)) }
{
    Ok(Setup {
        home: fixture.home,
        holes: fixture.holes.clone()?,
        dark: fixture.dark.clone()?,
        agents: fixture.keys.len() as u16,
        quota: fixture.quota,
        board: fixture.board,
    })
}

// The match before anything happens.
fn begun(alloc: Global, game: u32, net: &Net, fixture: &Fixture) -> Result<Match, FileFault>
    ensures { GivesUnlessMemory (λ game. game) result
        (unless (setup_fault net.now game (planned fixture.now)) (Ok (start_of net.now (planned fixture.now)))) }
{
    let net = net.try_clone(alloc)?;
    let setup = setup_of(fixture)?;
    started(alloc, game, net, setup, excess(fixture))
}

// Returns the fault of a match that needs a later version of the file, if any.
fn excess(fixture: &Fixture) -> Option<SetupFault>
    ensures { result ≡ excess (planned fixture.now) }
{
    if fixture.version >= 3 {
        None
    } else if fixture.quota > SMALL_QUOTA {
        Some(SetupFault::Quota)
    } else if fixture.board > SMALL_BOARD {
        Some(SetupFault::Board)
    } else {
        None
    }
}

// Starts the match with this setup, unless there is an excess fault.
fn started(
    alloc: Global,
    number: u32,
    net: Net,
    setup: Setup,
    excess: Option<SetupFault>,
) -> Result<Match, FileFault>
    ensures { GivesUnlessMemory (λ game. game) result
        (unless (option_map (faults.Setup number) (with_excess excess (first_fault net setup)))
        (Ok (begins net setup))) }
{
    match Match::new(alloc, net, setup) {
        Ok(game) => match excess {
            Some(fault) => Err(of_setup(number, fault)),
            None => Ok(game),
        },
        Err(fault) => Err(of_setup(number, fault_with(excess, fault))),
    }
}

// Returns the earlier of the two faults of a setup.
fn fault_with(excess: Option<SetupFault>, fault: SetupFault) -> SetupFault
    ensures { with_excess excess (Some fault) ≡ Some result }
{
    match fault {
        SetupFault::Dark => excess.unwrap_or(SetupFault::Dark),
        _ => fault,
    }
}

fn of_setup(game: u32, fault: SetupFault) -> FileFault
    ensures { result ≡ of_setup game fault }
{
    match fault {
        SetupFault::Memory => FileFault::Memory,
        _ => FileFault::Setup { game, fault },
    }
}

fn all_ready(
    alloc: Global,
    matches: Vec<Fixture>,
    games: Vec<Match>,
) -> Result<Vec<Ready>, FileFault>
    requires few { vec_len matches < 2 ^ 32 }
    ensures { GivesUnlessMemory (λ ready. ready.items) result (each_in readied 0 (zip matches.items games.items)) }
{
    let mut all = Vec::new(alloc);
    for (fixture, game) in matches.into_iter().zip(games) {
        let number = all.len() as u32;
        all.push(ready(alloc, number, fixture, game)?)?;
    }
    Ok(all)
}

// The match with its held links.
fn ready(alloc: Global, number: u32, fixture: Fixture, game: Match) -> Result<Ready, FileFault>
    ensures { GivesUnlessMemory (λ ready. ready) result
        (readied number (fixture, game)) }
{
    let Fixture { team, held, .. } = fixture;
    with_held(alloc, number, team, game, &held)
}

// The match of a team with these links held.
fn with_held(
    alloc: Global,
    number: u32,
    team: Text,
    game: Match,
    pairs: &[(u16, u16)],
) -> Result<Ready, FileFault>
    ensures { GivesUnlessMemory (λ ready. ready) result
        (unless (option_map (faults.Held number) (first_strange game.net pairs.now))
        (Ok (record { team = team; game = game; held = pairs.now }))) }
{
    let held = held(alloc, number, game.net(), pairs)?;
    Ok(Ready { team, game, held })
}

// The held links of a match on a network.
fn held(alloc: Global, game: u32, net: &Net, pairs: &[(u16, u16)]) -> Result<Held, FileFault>
    ensures { GivesUnlessMemory (λ held. held) result
        (unless (option_map (faults.Held game) (first_strange net.now pairs.now)) (Ok pairs.now)) }
{
    match Held::new(alloc, net, pairs) {
        Ok(held) => Ok(held),
        Err(HeldFault::At { index }) => Err(FileFault::Held { game, index }),
        Err(HeldFault::Memory) => Err(FileFault::Memory),
    }
}
