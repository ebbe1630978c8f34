//! The search by a chart as a program: an agent's step, and its memory after a reply or a wake-up.

ghost use Rattle.std.specs.Prelude.{◌≡◌, ℕ, [], ◌∷◌, false, IfOk, IfErr, IfSome, IfNone};
ghost use Rattle.bhs_schedules.specs.Strategies.{Heard, Woke};
ghost use Rattle.bhs_protocols_charts.specs.Charts as charts;
ghost use Rattle.bhs_protocols_charts.specs.Charting as specs;
ghost use Rattle.bhs_protocols_charts.specs.Programs as programs;

use crate::charts::{
    CLAIMED, ChartFault, DONE, FoundNode, NodeRow, chart_of, join, name_of, path, row_named,
    set_state, text_of,
};
use crate::decisions::decides;
use crate::memories::{Claim, Memory, NetworkFacts, NodeSight, Report};
use bhs_model::{Command, Reply};
use bhs_schedules::Step;
use bhs_text::Text;
use std::alloc::{AllocError, Global};
use std::collections::VecDeque;

/// What an agent does next.
pub fn does(alloc: Global, memory: &Memory) -> Result<Step, ChartFault>
    ensures step { IfOk result (λ step. step ≡ specs.does_in (programs.charting_of memory.now)) }
    ensures large { IfErr result (λ fault. fault ≡ ChartFault.TooLarge
        → programs.is_written_small (programs.charting_of memory.now) ≡ false) }
{
    match memory {
        Memory::Begins => Ok(Step::Says(Command::Enter)),
        Memory::Waits(_) => Ok(Step::Sleeps),
        Memory::Looks => Ok(Step::Says(Command::Look)),
        Memory::Claims { seen, claim } => claims(alloc, seen, *claim),
        Memory::GoesOut {
            claim: _,
            ahead,
            behind: _,
        } => Ok(departs(ahead, Step::Stops)),
        Memory::Names {
            claim,
            ports: _,
            behind: _,
        } => names(alloc, *claim),
        Memory::GoesBack {
            claim: _,
            found: _,
            behind,
        } => Ok(departs(behind, Step::Stops)),
        Memory::Reports(report) => reports(alloc, report),
        Memory::GoesToAccuse { port, ahead } => Ok(departs(
            ahead,
            Step::Says(Command::Accuse { port: *port }),
        )),
        Memory::Ends => Ok(Step::Stops),
    }
}

// Departs by the first of these ports, or takes another step without one.
fn departs(ports: &VecDeque<u16>, other: Step) -> Step
    ensures { result ≡ programs.departs (programs.next_in ports.now.items) other }
{
    match ports.front() {
        Some(port) => Step::Says(Command::Depart { port: *port }),
        None => other,
    }
}

fn claims(alloc: Global, seen: &NodeSight, claim: Claim) -> Result<Step, ChartFault>
    ensures step { IfOk result (λ step. step
        ≡ specs.does_in (specs.Claims seen.now.ports seen.now.text claim.row claim.port)) }
    ensures large { IfErr result (λ fault. fault ≡ ChartFault.TooLarge
        → programs.is_written_small (specs.Claims seen.now.ports seen.now.text claim.row claim.port) ≡ false) }
{
    let mut chart = chart_of(alloc, seen.ports, seen.text.as_str().as_bytes())?;
    set_state(&mut chart, claim.row, claim.port, CLAIMED);
    writes(alloc, &seen.text, &chart)
}

fn names(alloc: Global, claim: Claim) -> Result<Step, ChartFault>
    ensures step { IfOk result (λ step. step ≡ programs.writes [] (charts.name_of claim.row claim.port)) }
    ensures large { IfErr result (λ fault. fault ≡ ChartFault.TooLarge
        → programs.is_small (charts.new_row claim.row claim.port 0) ≡ false) }
{
    let put = name_of(alloc, claim.row, claim.port)?;
    let expect = Text::empty();
    Ok(Step::Says(Command::Write { expect, put }))
}

fn reports(alloc: Global, report: &Report) -> Result<Step, ChartFault>
    ensures step { IfOk result (λ step. step ≡ specs.does_in (programs.report_of report.now)) }
    ensures large { IfErr result (λ fault. fault ≡ ChartFault.TooLarge
        → programs.is_written_small (programs.report_of report.now) ≡ false) }
{
    let chart = reported(alloc, report)?;
    writes(alloc, &report.seen.text, &chart)
}

// The chart that an agent reports.
fn reported(alloc: Global, report: &Report) -> Result<Vec<NodeRow>, AllocError>
    ensures { IfOk result (λ chart. chart.items ≡ programs.written_in (programs.report_of report.now)) }
{
    let seen = &report.seen;
    let mut chart = chart_of(alloc, seen.ports, seen.text.as_str().as_bytes())?;
    set_state(&mut chart, report.claim.row, report.claim.port, DONE);
    join(alloc, &mut chart, report.found)?;
    Ok(chart)
}

// Writes a chart in place of a text.
fn writes(alloc: Global, expect: &Text, chart: &[NodeRow]) -> Result<Step, ChartFault>
    ensures step { IfOk result (λ step. step ≡ programs.writes expect.now (charts.text_of chart.now)) }
    ensures large { IfErr result (λ fault. fault ≡ ChartFault.TooLarge → programs.are_small chart.now ≡ false) }
{
    let put = text_of(alloc, chart)?;
    let expect = expect.clone()?;
    Ok(Step::Says(Command::Write { expect, put }))
}

/// What an agent holds after a reply.
pub fn after(
    alloc: Global,
    known: NetworkFacts,
    memory: Memory,
    reply: &Reply,
) -> Result<Memory, ChartFault>
    ensures held { IfOk result (λ next. programs.charting_of next
        ≡ specs.after_in known.nodes (programs.tells_of known.told) (programs.charting_of memory) (Heard reply.now)) }
    ensures large { IfErr result (λ fault. fault ≡ ChartFault.TooLarge
        → programs.is_written_small (programs.charting_of memory) ≡ false) }
{
    match memory {
        Memory::Begins => Ok(after_beginning(alloc, known, reply)?),
        Memory::Waits(seen) => Ok(Memory::Waits(seen)),
        Memory::Looks => Ok(after_looking(alloc, known, reply)?),
        Memory::Claims { seen, claim } => Ok(after_claiming(alloc, known, seen, claim, reply)?),
        Memory::GoesOut {
            claim,
            ahead,
            behind,
        } => Ok(after_leaving(claim, ahead, behind, reply)?),
        Memory::Names {
            claim,
            ports,
            behind,
        } => Ok(after_naming(claim, ports, behind, reply)),
        Memory::GoesBack {
            claim,
            found,
            behind,
        } => Ok(after_returning(claim, found, behind, reply)?),
        Memory::Reports(report) => after_reporting(alloc, known, report, reply),
        Memory::GoesToAccuse { port, ahead } => Ok(after_nearing(port, ahead, reply)),
        Memory::Ends => Ok(Memory::Ends),
    }
}

/// What an agent holds after it has slept and has woken.
pub fn after_waking(memory: Memory) -> Memory
    ensures { (nodes : ℕ) (tells : ℕ → ℕ) → programs.charting_of result
        ≡ specs.after_in nodes tells (programs.charting_of memory) Woke }
{
    match memory {
        Memory::Waits(_) => Memory::Looks,
        held => held,
    }
}

fn after_beginning(alloc: Global, known: NetworkFacts, reply: &Reply) -> Result<Memory, AllocError>
    ensures { IfOk result (λ next. programs.charting_of next
        ≡ specs.after_in known.nodes (programs.tells_of known.told) specs.Begins (Heard reply.now)) }
{
    match reply {
        Reply::Here {
            ports,
            came: _,
            board,
        } => decides(alloc, known, *ports, board.clone()?),
        _ => Ok(Memory::Begins),
    }
}

fn after_looking(alloc: Global, known: NetworkFacts, reply: &Reply) -> Result<Memory, AllocError>
    ensures { IfOk result (λ next. programs.charting_of next
        ≡ specs.after_in known.nodes (programs.tells_of known.told) specs.Looks (Heard reply.now)) }
{
    match reply {
        Reply::Here {
            ports,
            came: _,
            board,
        } => decides(alloc, known, *ports, board.clone()?),
        _ => Ok(Memory::Looks),
    }
}

fn after_claiming(
    alloc: Global,
    known: NetworkFacts,
    seen: NodeSight,
    claim: Claim,
    reply: &Reply,
) -> Result<Memory, AllocError>
    ensures { IfOk result (λ next. programs.charting_of next
        ≡ specs.after_in known.nodes (programs.tells_of known.told)
        (specs.Claims seen.ports seen.text claim.row claim.port) (Heard reply.now)) }
{
    match reply {
        Reply::Written => {
            let chart = chart_of(alloc, seen.ports, seen.text.as_str().as_bytes())?;
            let mut ahead = path(alloc, &chart, claim.row)?;
            ahead.push_back(claim.port)?;
            let behind = VecDeque::new(alloc);
            Ok(goes_out(claim, ahead, behind))
        }
        Reply::Changed { board } => decides(alloc, known, seen.ports, board.clone()?),
        _ => Ok(Memory::Claims { seen, claim }),
    }
}

// It has left by the first port ahead.
fn after_leaving(
    claim: Claim,
    mut ahead: VecDeque<u16>,
    mut behind: VecDeque<u16>,
    reply: &Reply,
) -> Result<Memory, AllocError>
    ensures { (nodes : ℕ) (tells : ℕ → ℕ) → IfOk result (λ next. programs.charting_of next
        ≡ specs.after_in nodes tells (specs.GoesOut claim.row claim.port ahead.items behind.items)
        (Heard reply.now)) }
{
    let Reply::Here {
        ports,
        came: Some(label),
        board,
    } = reply
    else {
        return Ok(goes_out(claim, ahead, behind));
    };
    let Some(_) = next_of(&mut ahead) else {
        return Ok(goes_out(claim, ahead, behind));
    };
    behind.push_front(*label)?;
    if ahead.is_empty() {
        return Ok(crossed(claim, *ports, board, behind));
    }
    Ok(goes_out(claim, ahead, behind))
}

fn goes_out(claim: Claim, ahead: VecDeque<u16>, behind: VecDeque<u16>) -> Memory
    ensures { programs.charting_of result ≡ specs.GoesOut claim.row claim.port ahead.items behind.items }
{
    Memory::GoesOut {
        claim,
        ahead,
        behind,
    }
}

fn goes_back(claim: Claim, found: Option<FoundNode>, behind: VecDeque<u16>) -> Memory
    ensures { programs.charting_of result
        ≡ specs.GoesBack claim.row claim.port (programs.rows_found found) behind.items }
{
    Memory::GoesBack {
        claim,
        found,
        behind,
    }
}

// Takes the first of the ports.
fn next_of(ports: &mut VecDeque<u16>) -> Option<u16>
    ensures some { IfSome result (λ port. ports.old.items ≡ port ∷ ports.new.items) }
    ensures none { IfNone result (ports.old.items ≡ []) }
    ensures left { IfNone result (ports.new.items ≡ []) }
{
    ports.pop_front()
}

// The agent has crossed its claimed port to a node with this number of ports and this whiteboard.
fn crossed(claim: Claim, ports: u16, board: &Text, behind: VecDeque<u16>) -> Memory
    ensures { programs.charting_of result ≡ specs.crossed claim.row claim.port ports board.now behind.items }
{
    let text = board.as_str().as_bytes();
    if text.is_empty() {
        return Memory::Names {
            claim,
            ports,
            behind,
        };
    }
    let found = row_named(ports, text);
    goes_back(claim, found, behind)
}

fn after_naming(claim: Claim, ports: u16, behind: VecDeque<u16>, reply: &Reply) -> Memory
    ensures { (nodes : ℕ) (tells : ℕ → ℕ) → programs.charting_of result
        ≡ specs.after_in nodes tells (specs.Names claim.row claim.port ports behind.items) (Heard reply.now) }
{
    match reply {
        Reply::Written => {
            let (father, port) = (claim.row, claim.port);
            let found = FoundNode {
                father,
                port,
                ports,
            };
            goes_back(claim, Some(found), behind)
        }
        Reply::Changed { board } => {
            let found = row_named(ports, board.as_str().as_bytes());
            goes_back(claim, found, behind)
        }
        _ => Memory::Names {
            claim,
            ports,
            behind,
        },
    }
}

// It has left by the first port behind.
fn after_returning(
    claim: Claim,
    found: Option<FoundNode>,
    mut behind: VecDeque<u16>,
    reply: &Reply,
) -> Result<Memory, AllocError>
    ensures { (nodes : ℕ) (tells : ℕ → ℕ) → IfOk result (λ next. programs.charting_of next
        ≡ specs.after_in nodes tells
        (specs.GoesBack claim.row claim.port (programs.rows_found found) behind.items) (Heard reply.now)) }
{
    let Reply::Here {
        ports,
        came: _,
        board,
    } = reply
    else {
        return Ok(goes_back(claim, found, behind));
    };
    let Some(_) = next_of(&mut behind) else {
        return Ok(goes_back(claim, found, behind));
    };
    if behind.is_empty() {
        let text = board.clone()?;
        let seen = NodeSight {
            ports: *ports,
            text,
        };
        return Ok(Memory::Reports(Report { claim, found, seen }));
    }
    Ok(goes_back(claim, found, behind))
}

fn after_reporting(
    alloc: Global,
    known: NetworkFacts,
    report: Report,
    reply: &Reply,
) -> Result<Memory, ChartFault>
    ensures held { IfOk result (λ next. programs.charting_of next
        ≡ specs.after_in known.nodes (programs.tells_of known.told) (programs.report_of report) (Heard reply.now)) }
    ensures large { IfErr result (λ fault. fault ≡ ChartFault.TooLarge
        → programs.is_written_small (programs.report_of report) ≡ false) }
{
    match reply {
        Reply::Written => {
            let text = text_of(alloc, &reported(alloc, &report)?)?;
            Ok(decides(alloc, known, report.seen.ports, text)?)
        }
        Reply::Changed { board } => {
            let text = board.clone()?;
            let seen = NodeSight {
                ports: report.seen.ports,
                text,
            };
            Ok(Memory::Reports(Report {
                claim: report.claim,
                found: report.found,
                seen,
            }))
        }
        _ => Ok(Memory::Reports(report)),
    }
}

// It has left by the first port ahead, or has accused.
fn after_nearing(port: u16, mut ahead: VecDeque<u16>, reply: &Reply) -> Memory
    ensures { (nodes : ℕ) (tells : ℕ → ℕ) → programs.charting_of result
        ≡ specs.after_in nodes tells (specs.GoesToAccuse port ahead.items) (Heard reply.now) }
{
    match reply {
        Reply::Here {
            ports: _,
            came: _,
            board: _,
        } => {
            let _port = next_of(&mut ahead);
            Memory::GoesToAccuse { port, ahead }
        }
        Reply::Noted if ahead.is_empty() => Memory::Ends,
        _ => Memory::GoesToAccuse { port, ahead },
    }
}
