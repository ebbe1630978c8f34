//! What an agent decides at the home base, by the chart on its whiteboard.

ghost use Rattle.std.specs.Prelude.{◌≡◌, ◌<◌, ◌^◌, IfOk};
ghost use Rattle.bhs_protocols_charts.specs.Charts as charts;
ghost use Rattle.bhs_protocols_charts.specs.Charting as specs;
ghost use Rattle.bhs_protocols_charts.specs.Programs as programs;

use crate::charts::{NodeRow, PortKind, chart_of, ends_of, first_end, open_ends_of, path};
use crate::memories::{Claim, Memory, NetworkFacts, NodeSight, Told};
use bhs_text::Text;
use std::alloc::{AllocError, Global};

/// What an agent holds once it has seen the home base, with this number of ports and this text on the whiteboard.
pub fn decides(
    alloc: Global,
    known: NetworkFacts,
    ports: u16,
    text: Text,
) -> Result<Memory, AllocError>
    ensures { IfOk result (λ next. programs.charting_of next
        ≡ specs.decided known.nodes (programs.tells_of known.told) ports text) }
{
    let chart = chart_of(alloc, ports, text.as_str().as_bytes())?;
    if is_sure(known, &chart) {
        return accuses(alloc, &chart);
    }
    let seen = NodeSight { ports, text };
    match first_end(&chart, PortKind::Free) {
        Some((row, port)) => Ok(Memory::Claims {
            seen,
            claim: Claim { row, port },
        }),
        None => Ok(Memory::Waits(seen)),
    }
}

// Goes to accuse the first port from which nobody has come back.
fn accuses(alloc: Global, chart: &[NodeRow]) -> Result<Memory, AllocError>
    ensures { IfOk result (λ next. programs.charting_of next
        ≡ specs.accusing chart.now (charts.first_end charts.is_open chart.now 0)) }
{
    match first_end(chart, PortKind::Open) {
        Some((row, port)) => Ok(Memory::GoesToAccuse {
            port,
            ahead: path(alloc, chart, row)?,
        }),
        None => Ok(Memory::Ends),
    }
}

// Whether the chart shows where the black hole is.
fn is_sure(known: NetworkFacts, chart: &[NodeRow]) -> bool
    requires { charts.ends_of chart.now < 2 ^ 64 }
    ensures { result ≡ charts.is_sure known.nodes (programs.tells_of known.told) chart.now }
{
    chart.len() + 1 == usize::from(known.nodes)
        && open_ends_of(chart) == hole_links(known.told, ends_of(chart))
}

// How many links the black hole has, by how many ports the other nodes have together.
fn hole_links(told: Told, ports: usize) -> usize
    ensures { result ≡ programs.tells_of told ports }
{
    match told {
        Told::Links(links) => (2 * links as usize).saturating_sub(ports),
        Told::Parity => 2 + ports % 2,
    }
}
