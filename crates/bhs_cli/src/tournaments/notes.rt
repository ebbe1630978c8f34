//! What a reader of a tournament's file may not expect: keys that are ignored, the schedule, and links that are held
//! or dark.

use crate::reporting::names::Shown;
use bhs_files::{Advice, FileKey, IgnoredKey, Tournament, ignored_keys, known_keys};
use bhs_net::Memory;
use bhs_time::ScheduleKind;
use std::alloc::Global;
use std::fmt;
use std::fmt::{Display, Formatter};
use std::io::Write;

// How many keys of a file are told.
const MOST_KEYS: usize = 20;

// How many bytes of a key are told.
const MOST_BYTES: usize = 40;

/// Tells each key of a tournament's file that is ignored, and what it may be meant for.
pub(crate) fn tell_ignored<E: Write>(alloc: Global, name: &str, text: &str, errors: &mut E) {
    let Ok(found) = ignored_keys(alloc, text) else {
        return;
    };
    let file = Shown { name };
    for one in found.iter().take(MOST_KEYS) {
        let note = KeyNote { one };
        let _ = writeln!(errors, "{file}: {note}");
    }
}

/// The lines of the schedule and of the links that are held or dark.
pub(crate) fn notes_on(
    alloc: Global,
    name: &str,
    tournament: &Tournament,
) -> Result<String, Memory> {
    let notes = Notes { name, tournament };
    Ok(format!(in alloc; "{notes}")?)
}

// The note on an ignored key.
#[derive(Drop)]
struct KeyNote<'a> {
    one: &'a IgnoredKey,
}

impl Display for KeyNote<'_> {
    fn fmt<W: fmt::Write>(&self, f: &mut Formatter<W>) -> fmt::Result {
        if let Some(game) = self.one.game {
            write!(f, "match {game} ")?;
        }
        let key = Shown {
            name: beginning(self.one.key.as_str()),
        };
        write!(f, "{key} is ignored")?;
        write_advice(self.one, f)
    }
}

// Returns a prefix of a key, which may be long.
fn beginning(key: &str) -> &str {
    for end in (0..MOST_BYTES + 1).rev() {
        if let Some(front) = key.get(..end) {
            return front;
        }
    }
    key
}

fn write_advice<W: fmt::Write>(one: &IgnoredKey, f: &mut Formatter<W>) -> fmt::Result {
    let own = one.version;
    match one.advice {
        Advice::Oblivious => f.write_str(" without schedule = \"oblivious\""),
        Advice::Version(version) => {
            write!(
                f,
                ": it is a key of version {version}, and the file has version {own}"
            )
        }
        Advice::OtherPlace if one.game.is_none() => f.write_str(": it belongs below a [[match]]"),
        Advice::OtherPlace => f.write_str(": it belongs above the first [[match]]"),
        Advice::Near(FileKey::Match) => f.write_str(": did you mean [[match]]?"),
        Advice::Near(key) => write!(f, ": did you mean {key}?"),
        Advice::Unlike => {
            f.write_str(": the keys here are")?;
            write_keys(own, one.game, f)
        }
    }
}

fn write_keys<W: fmt::Write>(version: u16, game: Option<u32>, f: &mut Formatter<W>) -> fmt::Result {
    for (place, key) in known_keys(version, game).iter().enumerate() {
        let comma = if place == 0 { "" } else { "," };
        write!(f, "{comma} {key}")?;
    }
    Ok(())
}

// The notes on a tournament that is valid.
#[derive(Drop)]
struct Notes<'a> {
    name: &'a str,
    tournament: &'a Tournament,
}

impl Display for Notes<'_> {
    fn fmt<W: fmt::Write>(&self, f: &mut Formatter<W>) -> fmt::Result {
        let file = Shown { name: self.name };
        write!(f, "{file}: the schedule is ")?;
        write_schedule(self.tournament.schedule, f)?;
        for (game, fixture) in self.tournament.matches.iter().enumerate() {
            let team = fixture.team.as_str();
            let dark = fixture.dark.ends();
            if !fixture.held.is_empty() {
                write!(
                    f,
                    "{file}: match {game} of {team} has held links, node and port:"
                )?;
                write_links(&fixture.held, f)?;
            }
            if !dark.is_empty() {
                write!(
                    f,
                    "{file}: match {game} of {team} has dark links, node and port:"
                )?;
                write_links(dark, f)?;
            }
        }
        Ok(())
    }
}

fn write_schedule<W: fmt::Write>(schedule: ScheduleKind, f: &mut Formatter<W>) -> fmt::Result {
    match schedule {
        ScheduleKind::Adaptive => f.write_str(
            "adaptive: no delays, and no turns to appeal by; version 3 has schedule = \"oblivious\"\n",
        ),
        ScheduleKind::Oblivious(delays) => {
            let (scales, odds) = (delays.scales(), delays.odds());
            let most = 1u64.checked_shl(u32::from(scales)).unwrap_or(u64::MAX);
            write!(
                f,
                "oblivious: a link takes less than {most} turns and a few picks, by "
            )?;
            writeln!(f, "delay_scales {scales} and delay_odds {odds}")
        }
    }
}

fn write_links<W: fmt::Write>(links: &[(u16, u16)], f: &mut Formatter<W>) -> fmt::Result {
    for (node, port) in links {
        write!(f, " [{node}, {port}]")?;
    }
    f.write_str("\n")
}
