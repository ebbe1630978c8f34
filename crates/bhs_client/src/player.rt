//! Playing an agent against a server.

ghost use Rattle.std.specs.Prelude.{◌≡◌, ◌≢◌, ◌≤◌, ℕ, List, string_bytes, IfErr, IfOk, IsTrue, OnOk, OnErr};
ghost use Rattle.bhs_client.specs.declared.player.PlayFault.{PlayFault};
ghost use Rattle.bhs_agents.specs.Searchers.{observation_of};
ghost use Rattle.bhs_client.specs.Talks.{Breaks, BreaksOff, Ends, Hears, HearsNone, Meets, Says, end_after, fault_by};
ghost use Rattle.bhs_schedules.specs.Strategies.{Woke};

use crate::commands::line_of;
use crate::replies::reply_of;
use bhs_agents::{AgentNews, PlayLimits, Searcher, SearcherFault, WakeUps};
use bhs_model::{Command, MAX_LINE, Reply, Why};
use bhs_schedules::Step;
use std::alloc::{AllocError, Global};
use thiserror::Error;

/// A connection to a server, line by line. Contracts see what a line that is written or read makes of it.
pub trait ServerConnection {
    // In the first state this line may be written whole, and the connection is then in the second state.
    ghost says: { Self → List ℕ → Self → Type 0 };
    // The same of a line that is read, without its line feed.
    ghost hears: { Self → List ℕ → Self → Type 0 };
    // The same of a line that could not be written whole.
    ghost cuts: { Self → List ℕ → Self → Type 0 };
    // In the first state a read may give no line, and the connection is then in the second state.
    ghost loses: { Self → Self → Type 0 };

    /// Writes a line and a line feed.
    fn say(&mut self, line: &str) -> Result<(), Lost>
        ensures said { OnOk result (says self.old line.now self.new) }
        ensures cut { OnErr result (cuts self.old line.now self.new) };

    /// Reads the next line.
    fn hear(&mut self) -> Result<String, Lost>
        ensures heard { IfOk result (λ line. hears self.old (string_bytes line) self.new) }
        ensures lost { OnErr result (loses self.old self.new) };

    /// Waits as long as an agent sleeps that has woken this often in a row.
    fn sleep(&self, in_a_row: u64);

    /// Reports that the agent, which has woken this often in a row, sleeps until its match is over.
    fn report_sleep(&self, in_a_row: u64);
}

/// The connection is lost, or gives no line.
#[derive(Clone, Copy, Debug, PartialEq, Eq, Drop, Error)]
#[error("the connection is lost")]
pub struct Lost;

/// How an agent ended that has played to its end.
#[derive(Clone, Copy, Debug, PartialEq, Eq, Drop)]
pub enum PlayEnd {
    /// It has accused a link.
    Accused,
    /// The server has reported the end of the match.
    Over,
}

/// Why an agent broke off.
#[derive(Clone, Copy, Debug, PartialEq, Eq, Drop, Error)]
pub enum PlayFault {
    #[error("the connection is lost")]
    Lost,
    #[error("the agent fails")]
    Failed,
    #[error("a command makes a line of more than 65,536 bytes, which a server does not take")]
    Long,
    #[error("the server refuses a command")]
    Refused(Why),
    #[error("a line of the server is no reply")]
    Line,
    #[error("the network has too many nodes, or a whiteboard a strange text")]
    Size,
    #[error("memory ran out")]
    Memory,
    #[error("too many replies")]
    Turns,
}

impl From<Lost> for PlayFault {
    ghost from_gives = { λ _ fault. fault ≡ PlayFault.Lost };

    fn from(_lost: Lost) -> PlayFault {
        PlayFault::Lost
    }
}

impl From<AllocError> for PlayFault {
    ghost from_gives = { λ _ fault. fault ≡ PlayFault.Memory };

    fn from(_refused: AllocError) -> PlayFault {
        PlayFault::Memory
    }
}

impl From<SearcherFault> for PlayFault {
    ghost from_gives = { λ fault played. played ≡ fault_by fault };

    fn from(fault: SearcherFault) -> PlayFault {
        match fault {
            SearcherFault::Size => PlayFault::Size,
            SearcherFault::Refused(why) => PlayFault::Refused(why),
            SearcherFault::Memory => PlayFault::Memory,
        }
    }
}

/// Plays an agent until it has accused a link or its match is over.
///
/// The agent says what its strategy says of its history, line by line, and nothing else. It never wakes more often in a
/// row than the limits allow. An agent that breaks off has written the lines of its strategy so far, and perhaps a
/// prefix of the next one.
pub fn play<C: ServerConnection, S: Searcher>(
    alloc: Global,
    connection: &mut C,
    searcher: &mut S,
    key: &str,
    limits: PlayLimits,
) -> Result<PlayEnd, PlayFault>
    ensures ended { IfOk result (λ ended. Ends C.says C.hears limits.spurious_wakeups (S.strategy searcher.old)
        key.now connection.old ended connection.new) }
    ensures broken { IfErr result (λ fault. Breaks C.says C.hears C.cuts C.loses limits.spurious_wakeups
        (S.strategy searcher.old) key.now connection.old fault connection.new) }
{
    let mut step = searcher.begin()?;
    let mut wake_ups = WakeUps::new(limits.spurious_wakeups);
    for _ in 0..limits.turns {
        let news = meet(alloc, connection, key, &step, &wake_ups)?;
        wake_ups = wake_ups.after(alloc, &news)?;
        step = searcher.next(&news)?;
        if let Some(ended) = ended_by(&news) {
            return end_of(ended, &step);
        }
    }
    Err(PlayFault::Turns)
}

// Takes the agent's next step: it says a command and hears the reply, or it sleeps and wakes.
fn meet<C: ServerConnection>(
    alloc: Global,
    connection: &mut C,
    key: &str,
    step: &Step,
    wake_ups: &WakeUps,
) -> Result<AgentNews, PlayFault>
    ensures met { IfOk result (λ news. Meets C.says C.hears key.now wake_ups.now.limit wake_ups.now.in_a_row step.now
        connection.old (observation_of news) connection.new) }
    ensures woke { IfOk result (λ news. observation_of news ≡ Woke → wake_ups.now.in_a_row ≤ wake_ups.now.limit) }
    ensures broken { OnErr result (BreaksOff C.says C.hears C.cuts C.loses key.now step.now
        connection.old connection.new) }
    ensures failed { IfErr result (λ fault. fault ≡ PlayFault.Failed → step.now ≡ Step.Fails) }
{
    match step {
        Step::Says(command) => {
            say(alloc, connection, key, command)?;
            Ok(AgentNews::Heard(hear(alloc, connection)?))
        }
        Step::Stops => Ok(AgentNews::Heard(hear(alloc, connection)?)),
        Step::Sleeps => {
            if wake_ups.in_a_row <= u64::from(wake_ups.limit) {
                connection.sleep(wake_ups.in_a_row);
                return Ok(AgentNews::Woke);
            }
            connection.report_sleep(wake_ups.in_a_row);
            hear_close(alloc, connection)?;
            Ok(AgentNews::Heard(Reply::Over))
        }
        Step::Fails => Err(PlayFault::Failed),
    }
}

// Hears the reply Over. A server sends no other reply to an agent that sleeps.
fn hear_close<C: ServerConnection>(alloc: Global, connection: &mut C) -> Result<(), PlayFault>
    ensures heard { OnOk result (Hears C.hears Reply.Over connection.old connection.new) }
    ensures broken { OnErr result (HearsNone C.hears C.loses connection.old connection.new) }
    ensures fault { IfErr result (λ fault. fault ≢ PlayFault.Failed) }
{
    let reply = hear(alloc, connection)?;
    if !is_over(&reply) {
        return Err(PlayFault::Line);
    }
    Ok(())
}

// Says a command, unless its line is longer than a server takes.
fn say<C: ServerConnection>(
    alloc: Global,
    connection: &mut C,
    key: &str,
    command: &Command,
) -> Result<(), PlayFault>
    ensures said { OnOk result (Says C.says key.now (Step.Says command.now) connection.old connection.new) }
    ensures broken { OnErr result (BreaksOff C.says C.hears C.cuts C.loses key.now (Step.Says command.now)
        connection.old connection.new) }
    ensures fault { IfErr result (λ fault. fault ≢ PlayFault.Failed) }
{
    let line = line_of(alloc, key, command)?;
    if line.len() > MAX_LINE {
        return Err(PlayFault::Long);
    }
    Ok(connection.say(line.as_str())?)
}

// Hears a reply.
fn hear<C: ServerConnection>(alloc: Global, connection: &mut C) -> Result<Reply, PlayFault>
    ensures heard { IfOk result (λ reply. Hears C.hears reply connection.old connection.new) }
    ensures broken { OnErr result (HearsNone C.hears C.loses connection.old connection.new) }
    ensures fault { IfErr result (λ fault. fault ≢ PlayFault.Failed) }
{
    let line = connection.hear()?;
    match reply_of(alloc, line.as_str())? {
        Some(reply) => Ok(reply),
        None => Err(PlayFault::Line),
    }
}

// The end of an agent whose next step is this one, or a fault if its strategy has failed.
fn end_of(ended: PlayEnd, step: &Step) -> Result<PlayEnd, PlayFault>
    ensures ended { IfOk result (λ it. (it ≡ ended) × (step.now ≢ Step.Fails)) }
    ensures failed { OnErr result (step.now ≡ Step.Fails) }
{
    match step {
        Step::Fails => Err(PlayFault::Failed),
        Step::Says(_) | Step::Sleeps | Step::Stops => Ok(ended),
    }
}

// Returns whether a reply reports the end of the match.
fn is_over(reply: &Reply) -> bool
    ensures { IsTrue result → reply.now ≡ Reply.Over }
{
    matches!(reply, Reply::Over)
}

// Returns the end of an agent, for news that end it.
fn ended_by(news: &AgentNews) -> Option<PlayEnd>
    ensures { result ≡ end_after (observation_of news.now) }
{
    match news {
        AgentNews::Heard(Reply::Noted) => Some(PlayEnd::Accused),
        AgentNews::Heard(Reply::Over | Reply::Bye) => Some(PlayEnd::Over),
        _ => None,
    }
}
