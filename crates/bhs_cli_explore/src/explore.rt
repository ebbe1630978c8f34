//! Every schedule of a match, tried, or schedules that are drawn, where a host plays the agents.

ghost use Rattle.std.specs.Prelude.{◌≡◌, IfOk, is_some};
ghost use Rattle.bhs_explore.specs.Questions.{IsAskedOnce, SomeMachinesAnswer};
ghost use Rattle.bhs_explore.specs.Results.{IsTrueOf};
ghost use Rattle.bhs_cli_explore.specs.Discoveries.{Explores, ExploresMatch, IsCounted, IsFound, PrintsDiscovery};
ghost use Rattle.bhs_cli_explore.specs.Discoveries.{found_in, is_drawn};

use crate::discoveries::{Discovery, found_of, status_of, text_of};
use crate::hosts::Host;
use crate::links::held_links;
use crate::worlds::world_of;
use bhs_cli::{Fault, lineup_of, report};
use bhs_cli_words::{Drawing, Exploration};
use bhs_explore::{Explored, Explorer, SampleRequest};
use bhs_model::Text;
use bhs_schedules::ExploreFault;
use bhs_setups::Ready;
use bhs_stream::{Input, Output, finish, send};
use std::alloc::Global;
use std::io::Write;
use std::rt::Files;

// How many visits there are between two lines that tell how far a search is: a fraction of a second.
const VISITS: u32 = 262_144;

/// Reads a tournament as `check` does, and tries every schedule of one of its matches, or draws some. The host that
/// plays the agents is asked by lines of the writer, and answers by lines of the reader. It then prints the finding. A
/// fault goes to `errors` and ends it. The answer is the exit status.
pub fn explore_named<F: Files, R: Input, W: Output, E: Write>(
    alloc: Global,
    files: &F,
    tournament: Text,
    exploration: Exploration,
    reader: &mut R,
    writer: &mut W,
    errors: &mut E,
) -> u8
    ensures { Explores W.takes W.flushes exploration reader.old reader.new writer.old writer.new result }
{
    let lineup = match lineup_of(alloc, files, tournament.as_str(), errors) {
        Ok(lineup) => lineup,
        Err(status) => return status,
    };
    let game = exploration.game;
    match lineup.ready.get(usize::from(game)) {
        Some(ready) => explore_match(alloc, ready, exploration, reader, writer, errors),
        None => report(tournament.as_str(), Fault::NoMatch { game }, errors),
    }
}

// Tries the schedules of a match, prints what was found, and reports the fault that ended it.
fn explore_match<R: Input, W: Output, E: Write>(
    alloc: Global,
    ready: &Ready,
    exploration: Exploration,
    reader: &mut R,
    writer: &mut W,
    errors: &mut E,
) -> u8
    ensures { ExploresMatch W.takes W.flushes ready.now exploration writer.new result }
{
    match explore_and_print(alloc, ready, exploration, reader, writer) {
        Ok(status) => status,
        Err(Fault::Write) => report("output", Fault::Write, errors),
        Err(fault) => report("host", fault, errors),
    }
}

// Tries the schedules of a match, and prints what was found. The answer is the exit status.
fn explore_and_print<R: Input, W: Output>(
    alloc: Global,
    ready: &Ready,
    exploration: Exploration,
    reader: &mut R,
    writer: &mut W,
) -> Result<u8, Fault>
    ensures { IfOk result (PrintsDiscovery W.takes W.flushes ready.now exploration writer.new) }
{
    let found = discovered(alloc, ready, exploration, reader, writer)?;
    let text = text_of(alloc, &found)?;
    send(writer, text.as_bytes())?;
    finish(writer)?;
    Ok(status_of(found_of(&found)))
}

// What is found in a match whose agents a host plays.
fn discovered<R: Input, W: Output>(
    alloc: Global,
    ready: &Ready,
    exploration: Exploration,
    reader: &mut R,
    writer: &mut W,
) -> Result<Discovery, Fault>
    ensures { IfOk result (IsFound ready.now exploration) }
{
    let held = held_links(alloc, ready)?;
    let world = world_of(alloc, ready, None)?;
    let mut host = Host::new(alloc, reader, writer);
    let mut explorer = match Explorer::new(alloc, world, held, exploration.wakeups, &mut host) {
        Ok(explorer) => explorer,
        Err(fault) => return Err(fault_of(fault, &host)),
    };
    match made(&mut explorer, &mut host, exploration) {
        Ok(discovery) => Ok(discovery),
        Err(fault) => Err(fault_of(fault, &host)),
    }
}

// Runs an explorer over all schedules, or over drawn ones.
fn made<R: Input, W: Output>(
    explorer: &mut Explorer,
    host: &mut Host<'_, R, W>,
    exploration: Exploration,
) -> Result<Discovery, ExploreFault>
    ensures found { IfOk result (λ discovery. IsTrueOf explorer.new (found_in discovery)) }
    ensures once { IfOk result (λ discovery. IsAskedOnce explorer.new) }
    ensures some { IfOk result (λ discovery. SomeMachinesAnswer explorer.new) }
    ensures counted { IfOk result (λ discovery. IsCounted discovery) }
    ensures kind { IfOk result (λ discovery. is_drawn discovery ≡ is_some exploration.drawing) }
    ensures same { (explorer.new.net ≡ explorer.old.net) × (explorer.new.setup ≡ explorer.old.setup) }
    ensures held { (explorer.new.held ≡ explorer.old.held) × (explorer.new.wakeups ≡ explorer.old.wakeups) }
{
    match exploration.drawing {
        None => Ok(Discovery::Tried(tried(explorer, host, exploration.states)?)),
        Some(drawing) => {
            let draws = draws_of(drawing, exploration.states);
            Ok(Discovery::Drawn(explorer.draw(host, draws)?))
        }
    }
}

// Runs an explorer over all schedules. Now and then the host is told how far the search is.
fn tried<R: Input, W: Output>(
    explorer: &mut Explorer,
    host: &mut Host<'_, R, W>,
    states: u32,
) -> Result<Explored, ExploreFault>
    ensures found { IfOk result (λ explored. IsTrueOf explorer.new explored.found) }
    ensures once { IfOk result (λ explored. IsAskedOnce explorer.new) }
    ensures some { IfOk result (λ explored. SomeMachinesAnswer explorer.new) }
    ensures same { (explorer.new.net ≡ explorer.old.net) × (explorer.new.setup ≡ explorer.old.setup) }
    ensures held { (explorer.new.held ≡ explorer.old.held) × (explorer.new.wakeups ≡ explorer.old.wakeups) }
{
    for _ in 0..states {
        if explorer.visit(host, states, VISITS)? {
            break;
        }
        host.report(explorer.visited())?;
    }
    explorer.explore(host, states)
}

/// The schedules to draw, each of at most this many turns.
pub(crate) fn draws_of(drawing: Drawing, turns: u32) -> SampleRequest {
    SampleRequest {
        schedules: drawing.schedules,
        seed: u64::from(drawing.seed),
        scheduler: drawing.scheduler,
        objective: drawing.objective,
        turns,
    }
}

// Why an exploration ended: the host's own fault, if it answers no more.
fn fault_of<R: Input, W: Output>(fault: ExploreFault, host: &Host<'_, R, W>) -> Fault {
    match fault {
        ExploreFault::Team => host.fault(),
        _ => Fault::from(fault),
    }
}
