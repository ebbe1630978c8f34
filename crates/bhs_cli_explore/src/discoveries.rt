//! What is printed of the schedules that were tried, or drawn.

ghost use Rattle.std.specs.Prelude.{◌≡◌, IfOk, string_bytes};
ghost use Rattle.bhs_cli_explore.specs.Discoveries.{bool_text, breaks_line, comes_line, counts_line, discovery};
ghost use Rattle.bhs_cli_explore.specs.Discoveries.{draws_line};
ghost use Rattle.bhs_cli_explore.specs.Discoveries.{endless_line, failure_text, fails_line, found_in, found_line};
ghost use Rattle.bhs_cli_explore.specs.Discoveries.{found_status, list_text, pairs_text, solves_line};

use bhs_cli::{DONE, FAILING, REFUSED_TEXT};
use bhs_explore::{Explored, SampleResult};
use bhs_net::Memory;
use bhs_referee::Verdict;
use bhs_schedules::{Bounds, Failure, Finding};
use bhs_standings::outcome_text;
use std::alloc::Global;

/// A finding about every schedule, or about drawn schedules.
#[derive(Drop)]
pub(crate) enum Discovery {
    Tried(Explored),
    Drawn(SampleResult),
}

/// The report of a discovery.
pub(crate) fn found_of(discovery: &Discovery) -> &Finding
    ensures { result.now ≡ found_in discovery.now }
{
    match discovery {
        Discovery::Tried(explored) => &explored.found,
        Discovery::Drawn(sample) => &sample.found,
    }
}

/// A line with the finding, and one with the counts of visited states or drawn schedules.
pub(crate) fn text_of(alloc: Global, found: &Discovery) -> Result<String, Memory>
    ensures { IfOk result (λ text. string_bytes text ≡ discovery found.now) }
{
    let mut text = found_line(alloc, found_of(found))?;
    let counts = match found {
        Discovery::Tried(explored) => counts_line(alloc, explored)?,
        Discovery::Drawn(sample) => draws_line(alloc, sample)?,
    };
    text.push_str(counts.as_str())?;
    Ok(text)
}

// The line of how much was visited.
fn counts_line(alloc: Global, explored: &Explored) -> Result<String, Memory>
    ensures { IfOk result (λ text. string_bytes text ≡ counts_line explored.now) }
{
    let (states, memories) = (explored.states, explored.memories);
    let (locals, boards) = (explored.locals, explored.boards);
    format!(in alloc;
        "{{\"states\":{states},\"memories\":{memories},\"stances\":{locals},\"boards\":{boards}}}\n"
    )
}

// The line of what was counted of drawn schedules.
fn draws_line(alloc: Global, sample: &SampleResult) -> Result<String, Memory>
    ensures { IfOk result (λ text. string_bytes text ≡ draws_line sample.now) }
{
    let (solved, failed, turns) = (sample.solved, sample.failed, sample.turns);
    let (memories, locals) = (sample.memories, sample.locals);
    let moves = pairs(alloc, &sample.moves)?;
    let lost = pairs(alloc, &sample.lost)?;
    let (moves, lost) = (moves.as_str(), lost.as_str());
    let mut text = format!(in alloc;
        "{{\"solved\":{solved},\"failed\":{failed},\"turns\":{turns},\"moves\":{moves}"
    )?;
    let more = format!(in alloc;
        ",\"lost\":{lost},\"memories\":{memories},\"stances\":{locals}}}\n"
    )?;
    text.push_str(more.as_str())?;
    Ok(text)
}

/// The exit status of what was found.
pub(crate) fn status_of(found: &Finding) -> u8
    ensures { result ≡ found_status found.now }
{
    match found {
        Finding::Solves(_) | Finding::Comes { .. } => DONE,
        Finding::Fails { .. } | Finding::Breaks { .. } | Finding::Endless { .. } => FAILING,
        Finding::Exceeds { .. } => REFUSED_TEXT,
    }
}

// Writes the line of a finding.
fn found_line(alloc: Global, found: &Finding) -> Result<String, Memory>
    ensures { IfOk result (λ text. string_bytes text ≡ found_line found.now) }
{
    match found {
        Finding::Solves(bounds) => solves_line(alloc, bounds),
        Finding::Comes { verdict, schedule } => comes_line(alloc, *verdict, schedule),
        Finding::Fails { verdict, schedule } => fails_line(alloc, *verdict, schedule),
        Finding::Breaks {
            agent,
            failure,
            schedule,
        } => breaks_line(alloc, *agent, *failure, schedule),
        Finding::Endless {
            schedule,
            cycle,
            is_fair,
        } => endless_line(alloc, schedule, cycle, *is_fair),
        Finding::Exceeds { agent, commands } => {
            format!(in alloc;
                "{{\"found\":\"exceeds\",\"agent\":{agent},\"commands\":{commands}}}\n"
            )
        }
    }
}

// The line of what every schedule comes to.
fn solves_line(alloc: Global, bounds: &Bounds) -> Result<String, Memory>
    ensures { IfOk result (λ text. string_bytes text ≡ solves_line bounds.now) }
{
    let (moves, lost) = (bounds.moves, bounds.lost);
    let (turns, wakeups) = (bounds.turns, bounds.wakeups);
    let commands = numbers(alloc, &bounds.commands)?;
    let commands = commands.as_str();
    let mut text = format!(in alloc;
        "{{\"found\":\"solves\",\"moves\":{moves},\"lost\":{lost},\"turns\":{turns}"
    )?;
    let more = format!(in alloc; ",\"naps\":{wakeups},\"commands\":{commands}}}\n")?;
    text.push_str(more.as_str())?;
    Ok(text)
}

// The line of a round that may go on for ever.
fn endless_line(
    alloc: Global,
    schedule: &[u16],
    cycle: &[u16],
    is_fair: bool,
) -> Result<String, Memory>
    ensures { IfOk result (λ text. string_bytes text ≡ endless_line schedule.now cycle.now is_fair) }
{
    let schedule = agents(alloc, schedule)?;
    let cycle = agents(alloc, cycle)?;
    let (schedule, cycle) = (schedule.as_str(), cycle.as_str());
    let fair = bool_text(is_fair);
    format!(in alloc;
        "{{\"found\":\"endless\",\"schedule\":{schedule},\"round\":{cycle},\"fair\":{fair}}}\n"
    )
}

// The JSON word for a truth value.
fn bool_text(is: bool) -> &'static str
    ensures { result.now ≡ bool_text is }
{
    if is { "true" } else { "false" }
}

// The line of a schedule that solves.
fn comes_line(alloc: Global, verdict: Verdict, schedule: &[u16]) -> Result<String, Memory>
    ensures { IfOk result (λ text. string_bytes text ≡ comes_line verdict schedule.now) }
{
    let (moves, lost) = (verdict.moves, verdict.lost);
    let schedule = agents(alloc, schedule)?;
    let schedule = schedule.as_str();
    format!(in alloc;
        "{{\"found\":\"comes\",\"moves\":{moves},\"lost\":{lost},\"schedule\":{schedule}}}\n"
    )
}

// The line of a schedule that fails.
fn fails_line(alloc: Global, verdict: Verdict, schedule: &[u16]) -> Result<String, Memory>
    ensures { IfOk result (λ text. string_bytes text ≡ fails_line verdict schedule.now) }
{
    let outcome = outcome_text(alloc, verdict.outcome)?;
    let outcome = outcome.as_str();
    let (moves, lost) = (verdict.moves, verdict.lost);
    let schedule = agents(alloc, schedule)?;
    let schedule = schedule.as_str();
    format!(in alloc;
        "{{\"found\":\"fails\",\"outcome\":\"{outcome}\",\"moves\":{moves},\"lost\":{lost},\"schedule\":{schedule}}}\n"
    )
}

// The line of a schedule under which an agent fails.
fn breaks_line(
    alloc: Global,
    agent: u16,
    failure: Failure,
    schedule: &[u16],
) -> Result<String, Memory>
    ensures { IfOk result (λ text. string_bytes text ≡ breaks_line agent failure schedule.now) }
{
    let failure = failure_text(failure);
    let schedule = agents(alloc, schedule)?;
    let schedule = schedule.as_str();
    format!(in alloc;
        "{{\"found\":\"breaks\",\"agent\":{agent},\"failure\":\"{failure}\",\"schedule\":{schedule}}}\n"
    )
}

// The word for how an agent fails.
fn failure_text(failure: Failure) -> &'static str
    ensures { result.now ≡ failure_text failure }
{
    match failure {
        Failure::Program => "program",
        Failure::Outside => "outside",
        Failure::Close => "close",
        Failure::Asleep => "asleep",
    }
}

// Agents as a list of JSON.
fn agents(alloc: Global, agents: &[u16]) -> Result<String, Memory>
    ensures { IfOk result (λ text. string_bytes text ≡ list_text agents.now) }
{
    let mut text = String::from_str(alloc, "[")?;
    let mut before = "";
    for agent in agents {
        let one = format!(in alloc; "{before}{agent}")?;
        text.push_str(one.as_str())?;
        before = ",";
    }
    text.push_str("]")?;
    Ok(text)
}

/// Numbers as a list of JSON.
pub(crate) fn numbers(alloc: Global, numbers: &[u32]) -> Result<String, Memory>
    ensures { IfOk result (λ text. string_bytes text ≡ list_text numbers.now) }
{
    let mut text = String::from_str(alloc, "[")?;
    let mut before = "";
    for number in numbers {
        let one = format!(in alloc; "{before}{number}")?;
        text.push_str(one.as_str())?;
        before = ",";
    }
    text.push_str("]")?;
    Ok(text)
}

// Pairs of numbers as a list of JSON.
fn pairs(alloc: Global, pairs: &[(u32, u32)]) -> Result<String, Memory>
    ensures { IfOk result (λ text. string_bytes text ≡ pairs_text pairs.now) }
{
    let mut text = String::from_str(alloc, "[")?;
    let mut before = "";
    for pair in pairs {
        let (number, times) = *pair;
        let one = format!(in alloc; "{before}[{number},{times}]")?;
        text.push_str(one.as_str())?;
        before = ",";
    }
    text.push_str("]")?;
    Ok(text)
}
