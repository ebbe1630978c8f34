//! Rehearsals whose scripts are played as they come: each line is answered before more is read.

ghost use Rattle.std.specs.Prelude.{◌≡◌, ◌+◌, ◌<◌, ◌≤◌, ◌^◌, ◌*◌, ◌∷◌, [], List, ℕ, length, map};
ghost use Rattle.std.specs.Prelude.{IfOk, IfErr, OnOk};
ghost use Rattle.bhs_rehearsal.specs.Rehearsing.{game_of};
ghost use Rattle.bhs_script.specs.Instructions.{IsEnded};
ghost use Rattle.bhs_script.specs.Script.{meaning};
ghost use Rattle.bhs_cli_rehearse.specs.Shells.{IsConcluded, IsRefusal, IsReplied, progress_of};
ghost use Rattle.bhs_cli_rehearse.specs.Rehearsal.{opening};
ghost use Rattle.bhs_cli.specs.LineStates.{IsPart};
ghost use Rattle.bhs_cli_rehearse.specs.Interactive.{Answers, BreaksAt, BreaksWithin, Interacts, InteractsToEnd};
ghost use Rattle.bhs_cli_rehearse.specs.Interactive.{InteractionStops};
ghost use Rattle.bhs_cli_rehearse.specs.Interactive.{ended};

use crate::play::obey_lent;
use bhs_cli::{Fault, LineState, take_line};
use bhs_model::MAX_TEXT;
use bhs_net::Memory;
use bhs_rehearsal::Rehearsal;
use bhs_script::{CONNECTIONS, Meaning, meaning_of};
use bhs_setups::{Lineup, Ready};
use bhs_stream::{BUFFER, Input, Output, finish, send};
use std::alloc::Global;

// Who plays a script, line by line.
#[derive(Drop)]
pub(crate) struct Shell<'s> {
    games: usize,
    rehearsal: Rehearsal<'s>,
    // The unfinished line.
    line: Vec<u8>,
    // How many lines were answered.
    answered: usize,
    // The buffer of the previous answer, for reuse.
    text: Vec<u8>,
}

/// Plays a script interactively, in a rehearsal of the matches with `CONNECTIONS` connections. Each line is answered
/// with the output of its connections, each line of which begins with the connection's number and a space, followed by
/// an empty line. The output is flushed before each read. At most `turns` reads are made. Returns the matches after the
/// script.
///
/// A line has at most `MAX_TEXT` bytes. One that is longer, or no line of a script, ends the rehearsal; what was
/// answered before stays.
pub fn rehearse_interactively<R: Input, W: Output>(
    alloc: Global,
    lineup: Lineup,
    reader: &mut R,
    writer: &mut W,
    turns: u64,
) -> Result<Vec<Ready>, Fault>
    requires turns { turns ≤ 2 ^ 48 }
    ensures played { IfOk result (λ ready. InteractsToEnd R.gives W.takes W.flushes turns (opening lineup) reader.old
        writer.old reader.new writer.new (map game_of ready.items)) }
    ensures stopped { IfErr result (InteractionStops R.gives W.takes W.flushes turns (opening lineup) reader.old
        writer.old
        reader.new writer.new) }
{
    let games = lineup.ready.len();
    let mut shell = Shell {
        games,
        rehearsal: Rehearsal::new(alloc, lineup, CONNECTIONS)?,
        line: Vec::new(alloc),
        answered: 0,
        text: Vec::new(alloc),
    };
    interact(alloc, &mut shell, reader, writer, turns)?;
    Ok(shell.rehearsal.into_ready())
}

// Plays the script to its end.
fn interact<R: Input, W: Output>(
    alloc: Global,
    shell: &mut Shell<'_>,
    reader: &mut R,
    writer: &mut W,
    turns: u64,
) -> Result<(), Fault>
    requires turns { turns ≤ 2 ^ 48 }
    requires line { shell.old.line.items ≡ [] }
    requires answered { shell.old.answered ≡ 0 }
    requires games { shell.old.games ≡ length shell.old.rehearsal.stage.games }
    ensures played { OnOk result (InteractsToEnd R.gives W.takes W.flushes turns shell.old.rehearsal.stage reader.old
        writer.old reader.new writer.new shell.new.rehearsal.stage.games) }
    ensures stopped { IfErr result (InteractionStops R.gives W.takes W.flushes turns shell.old.rehearsal.stage
        reader.old
        writer.old reader.new writer.new) }
{
    let mut buffer = [0u8; BUFFER];
    for _ in 0..turns {
        finish(writer)?;
        let Ok(count) = reader.read_some(&mut buffer) else {
            return Err(Fault::Read);
        };
        if count == 0 {
            return conclude(alloc, shell, writer);
        }
        answer_piece(alloc, shell, &buffer[..count], writer)?;
    }
    Err(Fault::Turns)
}

// More of the script was read. Each line that ends in it is answered.
fn answer_piece<W: Output>(
    alloc: Global,
    shell: &mut Shell<'_>,
    piece: &[u8],
    writer: &mut W,
) -> Result<(), Fault>
    requires part { IsPart shell.old.line.items }
    requires bound { shell.old.answered + (length shell.old.line.items + length piece.now) < 2 ^ 63 }
    ensures answered { OnOk result (Answers W.takes shell.old.games (progress_of shell.old piece.now) writer.old
        (progress_of shell.new []) writer.new) }
    ensures part { OnOk result (IsPart shell.new.line.items) }
    ensures games { OnOk result (shell.new.games ≡ shell.old.games) }
    ensures bound { OnOk result (shell.new.answered + length shell.new.line.items
        ≤ shell.old.answered + (length shell.old.line.items + length piece.now)) }
    ensures stopped { IfErr result (BreaksWithin W.takes shell.old.games W.flushes (progress_of shell.old piece.now)
        writer.old writer.new) }
{
    let mut after = piece;
    loop {
        match take_line(&mut shell.line, after)? {
            LineState::Ended(rest) => {
                answer(alloc, shell, writer)?;
                after = rest;
            }
            LineState::Unfinished => return Ok(()),
            LineState::Overlong => return Err(refusal(shell.answered + 1, writer)),
        }
    }
}

// The input has ended. A line that ends there is answered.
fn conclude<W: Output>(alloc: Global, shell: &mut Shell<'_>, writer: &mut W) -> Result<(), Fault>
    requires part { IsPart shell.old.line.items }
    requires bound { shell.old.answered < 2 ^ 63 }
    ensures concluded { OnOk result (IsConcluded W.takes W.flushes shell.old shell.new writer.old writer.new) }
    ensures stopped { IfErr result (BreaksWithin W.takes shell.old.games W.flushes (ended (progress_of shell.old []))
        writer.old writer.new) }
{
    if shell.line.is_empty() {
        return Ok(finish(writer)?);
    }
    answer(alloc, shell, writer)?;
    Ok(finish(writer)?)
}

// The line with this number is refused. Flushes the output.
fn refusal<W: Output>(line: usize, writer: &mut W) -> Fault
    ensures { IsRefusal W.flushes line writer.old writer.new result }
{
    match finish(writer) {
        Ok(()) => Fault::Line { line },
        Err(_) => Fault::Write,
    }
}

// Answers the line, which has ended.
fn answer<W: Output>(alloc: Global, shell: &mut Shell<'_>, writer: &mut W) -> Result<(), Fault>
    requires part { IsPart shell.old.line.items }
    requires bound { shell.old.answered < 2 ^ 63 }
    ensures answered { (rest : List ℕ) → OnOk result (Answers W.takes shell.old.games
        (progress_of shell.old (10 ∷ rest)) writer.old (progress_of shell.new rest) writer.new) }
    ensures line { OnOk result (shell.new.line.items ≡ []) }
    ensures games { OnOk result (shell.new.games ≡ shell.old.games) }
    ensures count { OnOk result (shell.new.answered ≡ shell.old.answered + 1) }
    ensures stopped { (rest : List ℕ) → IfErr result (BreaksAt W.takes shell.old.games W.flushes
        (progress_of shell.old (10 ∷ rest)) writer.old writer.new) }
{
    shell.text.clear();
    let is_meant = replied(
        alloc,
        shell.games,
        &mut shell.rehearsal,
        &mut shell.line,
        &mut shell.text,
    )?;
    if !is_meant {
        return Err(refusal(shell.answered + 1, writer));
    }
    send(writer, &shell.text)?;
    shell.line.clear();
    shell.answered += 1;
    Ok(())
}

// Plays a line and appends its answer to a text. Returns whether the line is valid.
fn replied(
    alloc: Global,
    games: usize,
    rehearsal: &mut Rehearsal<'_>,
    line: &mut Vec<u8>,
    text: &mut Vec<u8>,
) -> Result<bool, Memory>
    requires { length line.old.items ≤ MAX_TEXT }
    ensures { IfOk result (IsReplied (meaning games line.old.items) rehearsal.old.stage rehearsal.new.stage
        text.old.items text.new.items) }
{
    let end = line.len();
    line.push(b'\n')?;
    play_line(alloc, games, rehearsal, &line[..end], line, text)
}

// The same of a line that also stands with its line feed.
fn play_line(
    alloc: Global,
    games: usize,
    rehearsal: &mut Rehearsal<'_>,
    line: &[u8],
    ended: &[u8],
    text: &mut Vec<u8>,
) -> Result<bool, Memory>
    requires { IsEnded line.now ended.now }
    ensures { IfOk result (IsReplied (meaning games line.now) rehearsal.old.stage rehearsal.new.stage
        text.old.items text.new.items) }
{
    match meaning_of(alloc, games, line, ended)? {
        Meaning::Skipped => {}
        Meaning::Gives(instruction) => obey_lent(rehearsal, &instruction, text)?,
        Meaning::Refused => return Ok(false),
    }
    text.push(b'\n')?;
    Ok(true)
}
