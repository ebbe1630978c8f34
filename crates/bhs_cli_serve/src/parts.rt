//! The parts of replays and of their turns, which grow while the matches go on. Once a match is closed, its part
//! becomes the replay, and the part of its turns becomes the file of turns.

ghost use Rattle.std.specs.Prelude.{◌≡◌, IfOk, IfErr, string_bytes};
ghost use Rattle.bhs_replay.specs.Replay.{end_line};
ghost use Rattle.bhs_cli.specs.Fault.{IsOfFault};
ghost use Rattle.bhs_cli_serve.specs.Recording.{full_end_line, full_line, lines_of};

use crate::judged::{FEW, TIMES};
use crate::line_files::LineFile;
use crate::locked_files::Keep;
use crate::log::Log;
use crate::log_lines::{part_goes_on_line, part_waits_line};
use bhs_cli::{
    Fault, file_name, part_name, put_earlier_aside, report, turns_name, turns_part_name, turns_text,
};
use bhs_model::Event;
use bhs_net::Memory;
use bhs_replay::{head_of, line_of};
use bhs_server::Settled;
use bhs_setups::{Lineup, Ready};
use bhs_shared_match::{Copied, SharedMatch};
use bhs_time::ScheduleKind;
use std::alloc::Global;
use std::io::Write;
use std::rt::Files;
use std::sync::{Mutex, Wait};
use std::time::Clock;

/// The parts of the matches of a contest, by their numbers. Each is locked until the contest has ended, under both its
/// names, so that no other server puts it aside, whatever its prefix is.
#[derive(Drop)]
pub struct PartFiles {
    /// Only the thread that looks at the matches takes this lock, so nobody waits for the disk.
    all: Mutex<Vec<Part>>,
}

/// How far the part of a match is.
#[derive(Drop)]
struct Part {
    /// The number of its match.
    game: usize,
    names: Names,
    events: LineFile,
    /// The turns of the events, under the oblivious schedule. An event's turn is on the disk before the event is
    /// written.
    turns: Option<LineFile>,
    /// Whether the latest attempt to write failed.
    has_failed: bool,
    state: PartState,
}

// The names of the files of a match.
#[derive(Drop)]
struct Names {
    part: String,
    replay: String,
    turns_part: String,
    turns: String,
}

// How far a closed match's part has been turned into the replay.
#[derive(Clone, Copy, Debug, PartialEq, Eq)]
enum PartState {
    /// More events may come.
    GoesOn,
    /// It has the close, and lacks the end line.
    IsClosed,
    /// The part contains the whole replay; it and its turns still have the names of parts.
    IsWhole,
    /// The turns, if any, have their final name.
    IsTimed,
    /// The replay has its final name.
    IsNamed,
}

/// Begins the part of each match's replay with the head of the replay, and under the oblivious schedule that of its
/// turns, and locks them. Files of an earlier contest get other names before. If another server writes one of the
/// parts, all files are left alone. The first fault goes to `errors` and ends it: the answer is then its exit status.
pub(crate) fn begin_parts<R: Files + Keep, E: Write>(
    alloc: Global,
    rt: &R,
    prefix: &str,
    lineup: &Lineup,
    errors: &mut E,
) -> Result<PartFiles, u8>
    ensures { IfErr result IsOfFault }
{
    for number in 0..lineup.ready.len() {
        if let Err(fault) = seen_free(alloc, rt, prefix, number) {
            return Err(report_part(alloc, prefix, number, fault, errors));
        }
    }
    let Ok(mut all) = Vec::with_capacity(alloc, lineup.ready.len()) else {
        return Err(report(prefix, Fault::Memory, errors));
    };
    for (number, one) in lineup.ready.iter().enumerate() {
        let added = match begun(alloc, rt, prefix, number, one, lineup.schedule) {
            Ok(part) => all.push(part).is_ok(),
            Err(fault) => return Err(report_part(alloc, prefix, number, fault, errors)),
        };
        if !added {
            return Err(report(prefix, Fault::Memory, errors));
        }
    }
    Ok(PartFiles {
        all: Mutex::new(all),
    })
}

/// Reports why the part of the match of this number cannot be begun or locked. The answer is the exit status.
pub(crate) fn report_part<E: Write>(
    alloc: Global,
    prefix: &str,
    number: usize,
    fault: Fault,
    errors: &mut E,
) -> u8
    ensures { IsOfFault result }
{
    match part_name(alloc, prefix, number) {
        Ok(name) => report(name.as_str(), fault, errors),
        Err(_) => report(prefix, Fault::Memory, errors),
    }
}

fn names_of(alloc: Global, prefix: &str, number: usize) -> Result<Names, Memory> {
    Ok(Names {
        part: part_name(alloc, prefix, number)?,
        replay: file_name(alloc, prefix, number)?,
        turns_part: turns_part_name(alloc, prefix, number)?,
        turns: turns_name(alloc, prefix, number)?,
    })
}

// Sees that no other server writes the part of the match of this number, under either name.
fn seen_free<K: Keep>(alloc: Global, rt: &K, prefix: &str, number: usize) -> Result<(), Fault> {
    let names = names_of(alloc, prefix, number)?;
    let _replay = rt.lock(names.replay.as_str())?;
    let _part = rt.lock(names.part.as_str())?;
    Ok(())
}

// Begins the part of the match of this number. Those of an earlier contest are locked while they get other names.
fn begun<R: Files + Keep>(
    alloc: Global,
    rt: &R,
    prefix: &str,
    number: usize,
    ready: &Ready,
    schedule: ScheduleKind,
) -> Result<Part, Fault> {
    let names = names_of(alloc, prefix, number)?;
    let mut head = head_of(alloc, ready.game.net(), ready.game.setup())?;
    head.push('\n')?;
    let _replay = rt.lock(names.replay.as_str())?;
    let _part = rt.lock(names.part.as_str())?;
    put_earlier_aside(alloc, rt, prefix, number)?;
    let turns = match schedule {
        ScheduleKind::Adaptive => None,
        ScheduleKind::Oblivious(_) => Some(LineFile::begun(rt, names.turns_part.as_str(), b"")?),
    };
    let events = LineFile::begun(rt, names.part.as_str(), head.as_bytes())?;
    Ok(Part {
        game: number,
        names,
        events,
        turns,
        has_failed: false,
        state: PartState::GoesOn,
    })
}

impl PartFiles {
    /// Writes what the matches have newly kept to their parts, first its turns. The matches take turns, so that none
    /// waits for one that has much. The part of a match that is closed becomes the replay.
    pub(crate) fn write_on<R: Keep + Wait + Clock>(
        &self,
        rt: &R,
        alloc: Global,
        shared_matches: &[SharedMatch],
        log: &Log,
    ) {
        let mut guard = self.all.lock(rt);
        let parts = &mut *guard;
        for (part, shared_match) in parts.iter_mut().zip(shared_matches) {
            part.write_turns_on(rt, alloc, shared_match, log);
        }
        for _ in 0..TIMES {
            let mut is_done = true;
            for (part, shared_match) in parts.iter_mut().zip(shared_matches) {
                let has_more = part.write_on(rt, alloc, shared_match, log);
                is_done = is_done && !has_more;
            }
            if is_done {
                break;
            }
        }
        for part in parts.iter_mut() {
            part.sync(rt, alloc, log);
            part.end(rt, alloc, log);
        }
    }

    /// Makes way for the files of matches that ended so: files of others under their names are put aside, and a match
    /// that did not settle has a part and no replay.
    pub(crate) fn make_way<R: Keep + Wait>(&self, rt: &R, alloc: Global, settled: &[Settled]) {
        let mut guard = self.all.lock(rt);
        let parts = &mut *guard;
        for (part, one) in parts.iter_mut().zip(settled) {
            part.make_way(rt, alloc, one.is_ok());
        }
    }

    /// How many events the part of the match of this number has.
    pub(crate) fn events<R: Wait>(&self, rt: &R, game: usize) -> usize {
        match self.all.lock(rt).get(game) {
            Some(part) => part.events.events(),
            None => 0,
        }
    }
}

impl Part {
    // Writes a few events that its match has newly kept. A failure is reported, once, and it is tried again at the next
    // look. Answers whether the match may have more.
    fn write_on<R: Wait + Clock>(
        &mut self,
        rt: &R,
        alloc: Global,
        shared_match: &SharedMatch,
        log: &Log,
    ) -> bool {
        match self.appended(rt, alloc, shared_match) {
            Ok(0) => false,
            Ok(_) => {
                self.goes_on(rt, alloc, log);
                true
            }
            Err(_) => {
                self.fails(rt, alloc, log);
                false
            }
        }
    }

    // Writes the turns of what its match has newly kept, and sees that they are on the disk. So whenever the server
    // ends, each event of the part has its turn.
    fn write_turns_on<R: Wait + Clock>(
        &mut self,
        rt: &R,
        alloc: Global,
        shared_match: &SharedMatch,
        log: &Log,
    ) {
        if let Some(turns) = &mut self.turns {
            if add_turns(rt, alloc, shared_match, turns).is_err() {
                self.fails(rt, alloc, log);
            }
        }
    }

    // Sees that the events that were written are on the disk.
    fn sync<R: Wait + Clock>(&mut self, rt: &R, alloc: Global, log: &Log) {
        if self.events.sync().is_err() {
            self.fails(rt, alloc, log);
        }
    }

    // Appends a few events that the match has kept since, each with its turn. Returns their number.
    fn appended<R: Wait>(
        &mut self,
        rt: &R,
        alloc: Global,
        shared_match: &SharedMatch,
    ) -> Result<usize, Fault> {
        let events = self.events.events();
        let most = match &self.turns {
            Some(turns) => FEW.min(turns.synced().saturating_sub(events)),
            None => FEW,
        };
        let found = shared_match.copies(rt, alloc, events, most)?;
        if found.is_empty() {
            return Ok(0);
        }
        let lines = lines_of(alloc, &found)?;
        self.events.append(lines.as_bytes(), found.len())?;
        if found.iter().any(|one| is_close(&one.event)) {
            self.state = PartState::IsClosed;
        }
        Ok(found.len())
    }

    // The part of a match that is closed gets its end line and the name of the replay, once its turns have theirs. If
    // that fails it is reported, once, and tried again at the next look.
    fn end<R: Keep + Wait + Clock>(&mut self, rt: &R, alloc: Global, log: &Log) {
        if self.state == PartState::GoesOn || self.state == PartState::IsNamed {
            return;
        }
        match self.named(rt, alloc) {
            Ok(()) => self.goes_on(rt, alloc, log),
            Err(_) => self.fails(rt, alloc, log),
        }
    }

    fn named<R: Keep>(&mut self, rt: &R, alloc: Global) -> Result<(), Fault> {
        if self.state == PartState::IsClosed {
            let line = full_end_line(alloc, self.events.events())?;
            self.events.append(line.as_bytes(), 0)?;
            self.state = PartState::IsWhole;
        }
        if self.state == PartState::IsWhole {
            if self.turns.is_some() {
                rt.rename(
                    alloc,
                    self.names.turns_part.as_str(),
                    self.names.turns.as_str(),
                )?;
            }
            self.state = PartState::IsTimed;
        }
        rt.rename(alloc, self.names.part.as_str(), self.names.replay.as_str())?;
        self.state = PartState::IsNamed;
        Ok(())
    }

    // Makes way for the files of its match, which settled or did not. What cannot be put aside cannot be replaced
    // either, so its faults are reported by who writes these files.
    fn make_way<R: Keep>(&mut self, rt: &R, alloc: Global, has_settled: bool) {
        let replay = self.names.replay.as_str();
        let turns = self.names.turns.as_str();
        let is_timed = self.state == PartState::IsTimed || self.state == PartState::IsNamed;
        if self.state == PartState::IsNamed && !has_settled {
            let _ = rt.rename(alloc, replay, self.names.part.as_str());
        }
        if is_timed && self.turns.is_some() && !has_settled {
            let _ = rt.rename(alloc, turns, self.names.turns_part.as_str());
        }
        let _ = rt.put_others_aside(alloc, replay, self.events.file());
        let own = self.turns.as_ref().unwrap_or(&self.events);
        let _ = rt.put_others_aside(alloc, turns, own.file());
    }

    // Records that writing failed; the first failure is reported.
    fn fails<R: Wait + Clock>(&mut self, rt: &R, alloc: Global, log: &Log) {
        if !self.has_failed {
            log.report(rt, part_waits_line(alloc, self.game, self.events.events()));
        }
        self.has_failed = true;
    }

    // It was written on.
    fn goes_on<R: Wait + Clock>(&mut self, rt: &R, alloc: Global, log: &Log) {
        if self.has_failed {
            log.report(
                rt,
                part_goes_on_line(alloc, self.game, self.events.events()),
            );
        }
        self.has_failed = false;
    }
}

// Appends the turns of what a match has newly kept to their file, and sees that they are on the disk.
fn add_turns<R: Wait>(
    rt: &R,
    alloc: Global,
    shared_match: &SharedMatch,
    file: &mut LineFile,
) -> Result<(), Fault> {
    for _ in 0..TIMES {
        let found = shared_match.turns(rt, alloc, file.events(), FEW)?;
        if found.is_empty() {
            break;
        }
        let text = turns_text(alloc, &found)?;
        file.append(text.as_bytes(), found.len())?;
    }
    file.sync()
}

// The lines of events, as they stand in a replay.
fn lines_of(alloc: Global, found: &[Copied]) -> Result<String, Memory>
    ensures { IfOk result (λ text. string_bytes text ≡ lines_of found.now) }
{
    let mut text = String::new(alloc);
    for one in found {
        let line = full_line(alloc, one)?;
        text.push_str(line.as_str())?;
    }
    Ok(text)
}

fn full_line(alloc: Global, one: &Copied) -> Result<String, Memory>
    ensures { IfOk result (λ text. string_bytes text ≡ full_line one.now) }
{
    let mut line = line_of(alloc, &one.event, &one.reply)?;
    line.push('\n')?;
    Ok(line)
}

fn is_close(event: &Event) -> bool {
    match event {
        Event::Close => true,
        _ => false,
    }
}

// The end line of a replay with this number of events.
fn end_line(alloc: Global, events: usize) -> Result<String, Memory>
    ensures { IfOk result (λ text. string_bytes text ≡ end_line events) }
{
    format!(in alloc; "{{\"end\":{events}}}")
}

fn full_end_line(alloc: Global, events: usize) -> Result<String, Memory>
    ensures { IfOk result (λ text. string_bytes text ≡ full_end_line events) }
{
    let mut text = end_line(alloc, events)?;
    text.push('\n')?;
    Ok(text)
}
