//! The lines of the report.

ghost use Rattle.std.specs.Prelude.{◌≡◌, ◌++◌, IfOk, string_bytes};
ghost use Rattle.bhs_cli_attest.specs.Lines.{agent_line, follows, last_line, outcome_text, step_text};

use bhs_attest::Attestation;
use bhs_cli_explore::begun_line;
use bhs_model::{Command, Event};
use bhs_net::Memory;
use bhs_replay::line_of;
use bhs_schedules::Step;
use std::alloc::Global;

/// The line of an agent whose module is this file with these arguments.
pub(crate) fn agent_line(
    alloc: Global,
    agent: u16,
    file: &[u8],
    arguments: &[u32],
    attestation: &Attestation,
) -> Result<String, Memory>
    ensures { IfOk result (λ line. string_bytes line ≡ agent_line (record {
      agent = agent;
      file = file.now;
      arguments = arguments.now;
      attestation = attestation.now;
    })) }
{
    let mut line = begun_line(alloc, file, arguments)?;
    let outcome = outcome_text(alloc, agent, attestation)?;
    let end = outcome.as_str();
    let rest = format!(in alloc; ",\"agent\":{agent}{end}")?;
    line.push_str(rest.as_str())?;
    Ok(line)
}

/// Whether the agent followed its module.
pub(crate) fn follows(attestation: &Attestation) -> bool
    ensures { result ≡ follows attestation.now }
{
    matches!(attestation, Attestation::Follows { .. })
}

// The end of a line: how often the agent woke, or where it differs.
fn outcome_text(alloc: Global, agent: u16, attestation: &Attestation) -> Result<String, Memory>
    ensures { IfOk result (λ text. string_bytes text ≡ outcome_text agent attestation.now) }
{
    match attestation {
        Attestation::Follows { wake_ups, in_a_row } => {
            format!(in alloc; ",\"wake_ups\":{wake_ups},\"in_a_row\":{in_a_row}}}\n")
        }
        Attestation::Differs { place, step } => {
            let text = step_text(alloc, agent, step)?;
            let step = text.as_str();
            format!(in alloc; ",\"event\":{place},\"step\":{step}}}\n")
        }
        Attestation::Tires { place } => {
            format!(in alloc; ",\"event\":{place},\"step\":\"turns\"}}\n")
        }
    }
}

// What a module does where the log has another event.
fn step_text(alloc: Global, agent: u16, step: &Step) -> Result<String, Memory>
    ensures { IfOk result (λ text. string_bytes text ≡ step_text agent step.now) }
{
    match step {
        Step::Says(command) => said_text(alloc, agent, command),
        Step::Sleeps => String::from_str(alloc, "\"sleeps\""),
        Step::Stops => String::from_str(alloc, "\"stops\""),
        Step::Fails => String::from_str(alloc, "\"fails\""),
    }
}

// A command that a module says, as a line of a replay.
fn said_text(alloc: Global, agent: u16, command: &Command) -> Result<String, Memory>
    ensures { IfOk result (λ text. string_bytes text ≡ step_text agent (Step.Says command.now)) }
{
    let event = Event::Tell {
        agent,
        command: command.try_clone()?,
    };
    let line = line_of(alloc, &event, &None)?;
    let said = line.as_str();
    format!(in alloc; "\"says\",\"says\":{said}")
}

/// The last line: whether the replay is attested.
pub(crate) fn last_line(
    alloc: Global,
    is_attested: bool,
    agents: u16,
    wakeups: u16,
) -> Result<String, Memory>
    ensures { IfOk result (λ line. string_bytes line ≡ last_line is_attested agents wakeups) }
{
    if is_attested {
        format!(in alloc;
            "{{\"attested\":true,\"agents\":{agents},\"spurious_wakeups\":{wakeups}}}\n"
        )
    } else {
        format!(in alloc;
            "{{\"attested\":false,\"agents\":{agents},\"spurious_wakeups\":{wakeups}}}\n"
        )
    }
}
