//! The lines that report to the operator of a contest what happens.

ghost use Rattle.std.specs.Prelude.{◌≡◌, ◌/◌, ◌%◌, IfOk, string_bytes};
ghost use Rattle.bhs_cli_serve.specs.LogLines.{ended_words, plays_line, played_line, unplayed_line};
ghost use Rattle.bhs_cli_serve.specs.LogLines.{judged_line, unjudged_line, sessions_line, strays_line};
ghost use Rattle.bhs_cli_serve.specs.LogLines.{denied_words, outside_words, rejection_words, outsiders_line};
ghost use Rattle.bhs_cli_serve.specs.LogLines.{unread_line};
ghost use Rattle.bhs_cli_serve.specs.LogLines.{part_waits_line, part_goes_on_line};
ghost use Rattle.bhs_cli_serve.specs.LogLines.{open_line, closed_line, missing_line, numbers, number_after_space};
ghost use Rattle.bhs_cli_serve.specs.LogLines.{absent_line, standings_lines, all_closing_line, closing_line};
ghost use Rattle.bhs_cli_serve.specs.LogLines.{unknown_line, timed_line};

use bhs_cli_results::verdict_line;
use bhs_model::MAX_LINE;
use bhs_net::Memory;
use bhs_referee::Verdict;
use bhs_server::{Outside, Rejection};
use bhs_session::Ended;
use bhs_terminal::visible;
use bhs_wire::Denial;
use std::alloc::Global;

// How many characters of a line that was no command are reported at most.
const STRAY: usize = 80;

/// A session was let in as an agent of a match.
pub(crate) fn plays_line(
    alloc: Global,
    session: u32,
    game: u32,
    team: &str,
    agent: u16,
) -> Result<String, Memory>
    ensures { IfOk result (λ text. string_bytes text ≡ plays_line session game team.now agent) }
{
    format!(in alloc; "serve: session {session} plays match {game} ({team}) agent {agent}\n")
}

/// A session has ended that played this agent of this match.
pub(crate) fn played_line(
    alloc: Global,
    session: u32,
    game: u32,
    team: &str,
    agent: u16,
    ended: Ended,
) -> Result<String, Memory>
    ensures { IfOk result (λ text. string_bytes text ≡ played_line session game team.now agent ended) }
{
    let how = ended_words(ended);
    format!(in alloc;
        "serve: session {session} played match {game} ({team}) agent {agent}: {how}\n"
    )
}

/// A session had this many lines that were no commands; quotes the first one.
pub(crate) fn strays_line(
    alloc: Global,
    session: u32,
    lines: u32,
    first: &str,
) -> Result<String, Memory>
    ensures { IfOk result (λ text. string_bytes text ≡ strays_line session lines first.now) }
{
    if lines == 1 {
        return format!(in alloc; "serve: session {session}: 1 line was no command: {first}\n");
    }
    format!(in alloc;
        "serve: session {session}: {lines} lines were no commands, the first: {first}\n"
    )
}

/// A line that was no command, of which this is kept, in words: its first characters, as a terminal may show them. Of a
/// line that was too long nothing is kept.
pub(crate) fn stray_words(alloc: Global, kept: &[u8]) -> Result<String, Memory> {
    if kept.is_empty() {
        return Ok(format!(in alloc; "more than {MAX_LINE} bytes")?);
    }
    let text = String::from_utf8_lossy(alloc, kept)?;
    let mut start = String::new(alloc);
    for character in text.chars().take(STRAY) {
        start.push(character)?;
    }
    let more = if start.len() < text.len() { ".." } else { "" };
    let shown = visible(alloc, start.as_str())?;
    Ok(format!(in alloc; "\"{shown}{more}\"")?)
}

/// A client is gone whose agent has not entered.
pub(crate) fn unplayed_line(alloc: Global, session: u32, why: Outside) -> Result<String, Memory>
    ensures { IfOk result (λ text. string_bytes text ≡ unplayed_line session why) }
{
    let how = outside_words(why);
    format!(in alloc; "serve: session {session} played nobody: {how}\n")
}

// Why an agent has not entered, in words.
fn outside_words(why: Outside) -> &'static str
    ensures { result.now ≡ outside_words why }
{
    match why {
        Outside::Denied(denial) => denied_words(denial),
        Outside::Rejection(rejection) => rejection_words(rejection),
        Outside::Ended(ended) => ended_words(ended),
    }
}

// Why a first line was denied, in words.
fn denied_words(denial: Denial) -> &'static str
    ensures { result.now ≡ denied_words denial }
{
    match denial {
        Denial::Enter => "it was denied, since its first line was no enter",
        Denial::Key => "it was denied, since no agent has its key",
        Denial::Taken => "it was denied, since its key was used before",
    }
}

// Why a client was not served, in words.
fn rejection_words(why: Rejection) -> &'static str
    ensures { result.now ≡ rejection_words why }
{
    match why {
        Rejection::Full => "it was not served, since as many sessions go on as may",
        Rejection::Late => "it was cut off, since its first line did not come in time",
        Rejection::Memory => "it was not served, since memory or threads ran out",
    }
}

/// More clients came and went than lines report.
pub(crate) fn outsiders_line(alloc: Global, clients: u32) -> Result<String, Memory>
    ensures { IfOk result (λ text. string_bytes text ≡ outsiders_line clients) }
{
    format!(in alloc; "serve: {clients} more clients played nobody\n")
}

/// Lines were dropped because earlier lines had not been read.
pub(crate) fn unread_line(alloc: Global, lines: u32) -> Result<String, Memory>
    ensures { IfOk result (λ text. string_bytes text ≡ unread_line lines) }
{
    format!(in alloc; "serve: {lines} lines were dropped here, since nobody read the log\n")
}

/// Writing a part failed and is tried again.
pub(crate) fn part_waits_line(alloc: Global, game: usize, events: usize) -> Result<String, Memory>
    ensures { IfOk result (λ text. string_bytes text ≡ part_waits_line game events) }
{
    format!(in alloc; "serve: the part of match {game} stops after {events} events: write\n")
}

/// Writing a part succeeds again after a failure.
pub(crate) fn part_goes_on_line(alloc: Global, game: usize, events: usize) -> Result<String, Memory>
    ensures { IfOk result (λ text. string_bytes text ≡ part_goes_on_line game events) }
{
    format!(in alloc; "serve: the part of match {game} goes on after {events} events\n")
}

// How a session ended, in words.
fn ended_words(ended: Ended) -> &'static str
    ensures { result.now ≡ ended_words ended }
{
    match ended {
        Ended::Bye => "its agent left",
        Ended::Noted => "its agent accused",
        Ended::Over => "its match was over",
        Ended::Denied => "it was denied",
        Ended::InputEnded => "its input ended",
        Ended::ReadFault => "a read failed",
        Ended::WriteFault => "a write failed",
        Ended::Memory => "memory ran out",
        Ended::Turns => "it read too often",
    }
}

/// A match was closed after this number of turns, and has this number of events and this verdict.
pub(crate) fn judged_line(
    alloc: Global,
    game: u32,
    team: &str,
    turns: u32,
    events: usize,
    verdict: Verdict,
) -> Result<String, Memory>
    ensures { IfOk result (λ text. string_bytes text ≡ judged_line game team.now turns events verdict) }
{
    let verdict = verdict_line(alloc, verdict)?;
    let verdict = verdict.as_str();
    format!(in alloc;
        "serve: match {game} ({team}) closed: turns {turns} events {events}, {verdict}"
    )
}

/// A match was closed after this number of turns, and there was no memory to judge it.
pub(crate) fn unjudged_line(
    alloc: Global,
    game: u32,
    team: &str,
    turns: u32,
) -> Result<String, Memory>
    ensures { IfOk result (λ text. string_bytes text ≡ unjudged_line game team.now turns) }
{
    format!(in alloc;
        "serve: match {game} ({team}) closed: turns {turns} and no memory to judge it\n"
    )
}

/// How many sessions go on, how many agents have not entered yet, and how many matches are open.
pub(crate) fn sessions_line(
    alloc: Global,
    sessions: u32,
    missing: usize,
    matches: usize,
) -> Result<String, Memory>
    ensures { IfOk result (λ text. string_bytes text ≡ sessions_line sessions missing matches) }
{
    format!(in alloc;
        "serve: sessions {sessions}, agents to come {missing}, open matches {matches}\n"
    )
}

/// How far a match is that goes on: how many turns it has taken out of how many, and how many events its part has.
pub(crate) fn open_line(
    alloc: Global,
    game: usize,
    team: &str,
    turns: u32,
    most: u32,
    events: usize,
) -> Result<String, Memory>
    ensures { IfOk result (λ text. string_bytes text ≡ open_line game team.now turns most events) }
{
    format!(in alloc;
        "serve: match {game} ({team}) is open: turns {turns} of {most} events {events}\n"
    )
}

/// A match was closed after this number of turns, and its part has this number of events.
pub(crate) fn closed_line(
    alloc: Global,
    game: usize,
    team: &str,
    turns: u32,
    events: usize,
) -> Result<String, Memory>
    ensures { IfOk result (λ text. string_bytes text ≡ closed_line game team.now turns events) }
{
    format!(in alloc; "serve: match {game} ({team}) is closed: turns {turns} events {events}\n")
}

/// Which agents of a match have not entered.
pub(crate) fn missing_line(
    alloc: Global,
    game: usize,
    team: &str,
    agents: &[u16],
) -> Result<String, Memory>
    ensures { IfOk result (λ text. string_bytes text ≡ missing_line game team.now agents.now) }
{
    let agents = numbers(alloc, agents)?;
    let agents = agents.as_str();
    format!(in alloc; "serve: match {game} ({team}) misses agents{agents}\n")
}

// Formats numbers, each after a space.
fn numbers(alloc: Global, all: &[u16]) -> Result<String, Memory>
    ensures { IfOk result (λ text. string_bytes text ≡ numbers all.now) }
{
    let mut text = String::new(alloc);
    for one in all {
        let number = number(alloc, *one)?;
        text.push_str(number.as_str())?;
    }
    Ok(text)
}

fn number(alloc: Global, one: u16) -> Result<String, Memory>
    ensures { IfOk result (λ text. string_bytes text ≡ number_after_space one) }
{
    format!(in alloc; " {one}")
}

/// How the matches would be ranked if all that are open were closed now.
pub(crate) fn standings_lines(alloc: Global, table: &str, absent: &str) -> Result<String, Memory>
    ensures { IfOk result (λ text. string_bytes text ≡ standings_lines table.now absent.now) }
{
    format!(in alloc; "serve: if all matches were closed now:\n{table}{absent}")
}

/// A team without any agent, listed below the table.
pub(crate) fn absent_line(alloc: Global, game: usize, team: &str) -> Result<String, Memory>
    ensures { IfOk result (λ text. string_bytes text ≡ absent_line game team.now) }
{
    format!(in alloc; "  - {team}: no agent of match {game} has entered\n")
}

/// The operator has all matches closed.
pub(crate) fn all_closing_line(alloc: Global) -> Result<String, Memory>
    ensures { IfOk result (λ text. string_bytes text ≡ all_closing_line) }
{
    format!(in alloc; "serve: the operator closes all matches\n")
}

/// The operator has a match closed.
pub(crate) fn closing_line(alloc: Global, game: u32) -> Result<String, Memory>
    ensures { IfOk result (λ text. string_bytes text ≡ closing_line game) }
{
    format!(in alloc; "serve: the operator closes match {game}\n")
}

/// Lines of the operator asked for nothing, and what there is to ask for.
pub(crate) fn unknown_line(alloc: Global, lines: u32, matches: usize) -> Result<String, Memory>
    ensures { IfOk result (λ text. string_bytes text ≡ unknown_line lines matches) }
{
    format!(in alloc;
        "serve: ignored {lines} lines of standard input: expected close, close M with M below {matches}, or status\n"
    )
}

/// A line with the time at which it is reported, this many seconds after the contest began.
pub(crate) fn timed_line(alloc: Global, seconds: u64, line: &str) -> Result<String, Memory>
    ensures { IfOk result (λ text. string_bytes text ≡ timed_line seconds line.now) }
{
    let hours = seconds / 3600;
    let minutes = seconds / 60 % 60;
    let seconds = seconds % 60;
    let (ten_minutes, minutes) = (minutes / 10, minutes % 10);
    let (ten_seconds, seconds) = (seconds / 10, seconds % 10);
    format!(in alloc; "{hours}:{ten_minutes}{minutes}:{ten_seconds}{seconds} {line}")
}
