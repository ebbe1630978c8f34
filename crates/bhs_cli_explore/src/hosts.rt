//! A team that a host plays at the other end of an input and an output. Questions and answers are lines.

ghost use Rattle.std.specs.Prelude.{◌≡◌, ◌++◌, ◌∷◌, [], ℕ, List, Bool, IfOk, IfSome, OnOk, Ok, true, false};
ghost use Rattle.bhs_wire.specs.LentReply.{reply_of};
ghost use Rattle.bhs_stream.specs.Reading.{IsPiece};
ghost use Rattle.bhs_stream.specs.Streams.{Bytes};
ghost use Rattle.bhs_schedules.specs.Dialogues.{item_with, reply_with};
ghost use Rattle.bhs_cli.specs.LineStates.{IsPart};
ghost use Rattle.bhs_cli_explore.specs.HostAnswers.{IsExchange, IsNumbered, IsReplied, TakesText, TakesCommand};
ghost use Rattle.bhs_cli_explore.specs.HostAnswers.{TakesHeld};
ghost use Rattle.bhs_cli_explore.specs.HostAnswers.{begin_question, next_question, word_of};

use bhs_cli::{Fault, LineState, MAX_READS, take_line};
use bhs_explore::Visited;
use bhs_model::{Command, Mark};
use bhs_net::Memory;
use bhs_schedules::{Latest, Step, Team, TeamAnswer, TeamFault};
use bhs_stream::{BUFFER, Input, Output, finish, send};
use bhs_wire::{First, LentReply, LineKind, LineReader, kind_of, push_line};
use std::alloc::Global;

/// Who says what agents hold, and what they do next.
#[derive(Drop)]
pub(crate) struct Host<'h, R, W> {
    alloc: Global,
    reader: &'h mut R,
    writer: &'h mut W,
    commands: LineReader,
    // What was read and not taken yet.
    held: Vec<u8>,
    // How many lines were taken.
    taken: usize,
    // Why the host answers nothing more.
    fault: Option<Fault>,
}

// What an agent does next, as a word of an answer.
#[derive(Clone, Copy)]
enum Does {
    Says,
    Sleeps,
    Stops,
    Fails,
}

impl<'h, R: Input, W: Output> Host<'h, R, W> {
    pub(crate) fn new(alloc: Global, reader: &'h mut R, writer: &'h mut W) -> Host<'h, R, W> {
        Host {
            alloc,
            reader,
            writer,
            commands: LineReader::new(alloc),
            held: Vec::new(alloc),
            taken: 0,
            fault: None,
        }
    }

    /// Why the host answers nothing more. A host that has no fault of its own has broken a rule of teams with its last
    /// line.
    pub(crate) fn fault(&self) -> Fault {
        match self.fault {
            Some(fault) => fault,
            None => Fault::Line { line: self.taken },
        }
    }

    /// Reports how far a search is, by a line that has no answer.
    pub(crate) fn report(&mut self, visited: Visited) -> Result<(), TeamFault> {
        let reported = self.reported(visited);
        self.noted(reported)
    }

    fn reported(&mut self, visited: Visited) -> Result<(), Fault> {
        let Visited { states, depth } = visited;
        let line = format!(in self.alloc; "{{\"visited\":{states},\"depth\":{depth}}}\n")?;
        send(self.writer, line.as_bytes())?;
        finish(self.writer)?;
        Ok(())
    }

    // What an agent holds at the start.
    fn held_first(&mut self, agent: u16) -> Result<TeamAnswer, Fault>
        ensures { IfOk result (λ answer. IsReplied R.gives W.takes W.flushes self.old (begin_question agent)
            answer.memory answer.step self.new) }
    {
        let question = begin_line(self.alloc, agent)?;
        self.answer(&question)
    }

    // Asks for the memory of an agent after an observation, given its memory before.
    fn held_next(&mut self, before: u32, latest: Latest, shown: &str) -> Result<TeamAnswer, Fault>
        ensures { IfOk result (λ answer. IsReplied R.gives W.takes W.flushes self.old
            (next_question before (item_with latest shown.now)) answer.memory answer.step self.new) }
    {
        let question = ask_line(self.alloc, before, latest, shown)?;
        self.answer(&question)
    }

    // Asks a question, and takes the answer.
    fn answer(&mut self, question: &[u8]) -> Result<TeamAnswer, Fault>
        ensures { IfOk result (λ answer.
            IsReplied R.gives W.takes W.flushes self.old question.now answer.memory answer.step self.new) }
    {
        send(self.writer, question)?;
        finish(self.writer)?;
        let line = self.line()?;
        let Some((memory, does)) = answer_in(&line) else {
            return Err(self.refused());
        };
        let step = match does {
            Does::Says => Step::Says(self.command()?),
            Does::Sleeps => Step::Sleeps,
            Does::Stops => Step::Stops,
            Does::Fails => Step::Fails,
        };
        Ok(TeamAnswer { memory, step })
    }

    // The command that a client sends by the next line, as a server takes it.
    fn command(&mut self) -> Result<Command, Fault>
        ensures command { IfOk result (TakesCommand R.gives self.old self.new) }
        ensures writer { self.new.writer.now ≡ self.old.writer.now }
    {
        let line = self.line()?;
        match kind_of(&line) {
            LineKind::Over => Ok(Command::Bad),
            LineKind::Blank => Err(self.refused()),
            LineKind::Whole => match self.commands.command_of(&line)? {
                First::Enter { .. } => Ok(Command::Enter),
                First::Tell(command) => Ok(command),
            },
        }
    }

    // The next line, without its line feed.
    fn line(&mut self) -> Result<Vec<u8>, Fault>
        ensures line { IfOk result (λ line. TakesText R.gives self.old self.new (line.items ++ 10 ∷ [])) }
        ensures writer { self.new.writer.now ≡ self.old.writer.now }
    {
        self.taken = self.taken.saturating_add(1);
        let mut line = Vec::new(self.alloc);
        for _ in 0..MAX_READS {
            if self.take_held(&mut line)? {
                return Ok(line);
            }
            if !self.read_more()? {
                return Err(self.refused());
            }
        }
        Err(Fault::Turns)
    }

    // Notes the fault for which the host answers nothing more, if there is one.
    fn noted<T: Drop>(&mut self, done: Result<T, Fault>) -> Result<T, TeamFault>
        ensures done { IfOk result (λ it. done ≡ Ok it) }
        ensures same { OnOk result (self.new ≡ self.old) }
    {
        match done {
            Ok(done) => Ok(done),
            Err(fault) => {
                self.fault = Some(fault);
                Err(TeamFault)
            }
        }
    }

    // TakesText what was read of a line. Says whether the line has ended.
    fn take_held(&mut self, line: &mut Vec<u8>) -> Result<bool, Fault>
        ensures held { IsPart line.old.items
            → IfOk result (TakesHeld (line.old.items ++ self.old.held.items) line.new.items self.new.held.items) }
        ensures part { IsPart line.old.items → IsPart line.new.items }
        ensures reader { self.new.reader.now ≡ self.old.reader.now }
        ensures writer { self.new.writer.now ≡ self.old.writer.now }
    {
        let rest = match take_line(line, &self.held)? {
            LineState::Ended(rest) => rest,
            LineState::Unfinished => {
                self.held.clear();
                return Ok(false);
            }
            LineState::Overlong => return Err(self.refused()),
        };
        let rest = Vec::from_slice(self.alloc, rest)?;
        self.held = rest;
        Ok(true)
    }

    // The last line was refused.
    fn refused(&self) -> Fault {
        Fault::Line { line: self.taken }
    }

    // Reads once. Says whether anything came.
    fn read_more(&mut self) -> Result<bool, Fault>
        ensures more { IfOk result (λ more. more ≡ true → (piece : List ℕ) × (IsPiece piece)
            × (R.gives self.old.reader.now (Bytes piece) self.new.reader.now)
            × (self.new.held.items ≡ self.old.held.items ++ piece)) }
        ensures writer { self.new.writer.now ≡ self.old.writer.now }
    {
        let mut buffer = [0u8; BUFFER];
        let Ok(count) = self.reader.read_some(&mut buffer) else {
            return Err(Fault::Read);
        };
        self.held.extend_from_slice(&buffer[..count])?;
        Ok(count > 0)
    }
}

impl<'h, R: Input, W: Output> Team for Host<'h, R, W> {
    ghost answers = { IsExchange R.gives W.takes W.flushes };

    fn begin(&mut self, agent: u16) -> Result<TeamAnswer, TeamFault> {
        let answer = self.held_first(agent);
        self.noted(answer)
    }

    fn next(&mut self, before: u32, latest: Latest, shown: &str) -> Result<TeamAnswer, TeamFault> {
        let answer = self.held_next(before, latest, shown);
        self.noted(answer)
    }
}

// The question what an agent holds at the start.
fn begin_line(alloc: Global, agent: u16) -> Result<Vec<u8>, Memory>
    ensures { IfOk result (λ text. text.items ≡ begin_question agent) }
{
    let line = format!(in alloc; "{{\"begin\":{agent}}}\n")?;
    Ok(Vec::from_slice(alloc, line.as_bytes())?)
}

// The question for the memory of an agent after an observation, given its memory before.
fn ask_line(alloc: Global, before: u32, latest: Latest, shown: &str) -> Result<Vec<u8>, Memory>
    ensures { IfOk result (λ text. text.items ≡ next_question before (item_with latest shown.now)) }
{
    let line = format!(in alloc; "{{\"ask\":{before},")?;
    let mut text = Vec::from_slice(alloc, line.as_bytes())?;
    match latest {
        Latest::Woke => text.extend_from_slice(b"\"wakes\":true")?,
        Latest::Heard(mark) => {
            text.extend_from_slice(b"\"hears\":")?;
            push_line(alloc, &mut text, lent_reply(mark, shown))?;
        }
    }
    text.extend_from_slice(b"}\n")?;
    Ok(text)
}

// The reply that a mark stands for, if this is the text that its whiteboard shows.
fn lent_reply<'s>(mark: Mark, shown: &'s str) -> LentReply<'s>
    ensures { reply_of result ≡ reply_with mark shown.now }
{
    match mark {
        Mark::Here { ports, came, .. } => LentReply::Here {
            ports,
            came,
            board: shown,
        },
        Mark::Written => LentReply::Written,
        Mark::Changed { .. } => LentReply::Changed { board: shown },
        Mark::Gone => LentReply::Gone,
        Mark::Noted => LentReply::Noted,
        Mark::Bye => LentReply::Bye,
        Mark::Over => LentReply::Over,
        Mark::No(why) => LentReply::No(why),
    }
}

// The memory and the word of an answer.
fn answer_in(line: &[u8]) -> Option<(u32, Does)>
    ensures { IfSome result (λ answer. IsNumbered line.now answer.0 (word_of answer.1)) }
{
    let text = str::from_utf8(line).ok()?;
    let (number, word) = text.split_once(' ')?;
    let memory = number.parse::<u32>().ok()?;
    let does = match word {
        "says" => Does::Says,
        "sleeps" => Does::Sleeps,
        "stops" => Does::Stops,
        "fails" => Does::Fails,
        _ => return None,
    };
    Some((memory, does))
}
