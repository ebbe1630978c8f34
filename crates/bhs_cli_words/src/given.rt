//! The order in what clap made of the words.

ghost use Rattle.std.specs.Prelude.{◌≡◌, ◌<◌, ◌^◌, IfOk, Some, map, option_and_then, option_map, codes};
ghost use Rattle.bhs_cli_words.specs.Arguments.{is_given, number_in, number_within, text_in, texts_in};
ghost use Rattle.bhs_cli_words.specs.Serving.{hosting_by};
ghost use Rattle.bhs_cli_words.specs.Exploring.{drawing_by, exploration_by};
ghost use Rattle.bhs_cli_words.specs.CommandLine.{appeal_of, attesting_of, contest_table_by, entries_in, exploring_of};
ghost use Rattle.bhs_cli_words.specs.CommandLine.{exploring_host, exploring_modules};
ghost use Rattle.bhs_cli_words.specs.CommandLine.{is_one_word, judging_by, judging_of, order_by, recovery_by};
ghost use Rattle.bhs_cli_words.specs.CommandLine.{rehearsal_of, tabling_by};
ghost use Rattle.bhs_cli_words.specs.Told.{most_of, number_by, row_number};
ghost use Rattle.clap.specs.Words.{first_of, found_of, rows_of, subcommand_rows_of};

use crate::commands::{
    Argument, REPLAY, TOURNAMENT, Takes, explain, explore, judge, recover, rehearse, serve, table,
    twin,
};
use crate::drawings::drawing;
use crate::orders::{AgentModules, Appeal, Drawing, Entries, Exploration, Hosting, Order};
use crate::words::{entries_in, modules_in, number_within, text};
use bhs_text::Text;
use clap::ArgMatches;
use std::alloc::{AllocError, Global};

/// Returns the order; None for words that its command does not accept.
pub(crate) fn order_given(
    alloc: Global,
    matches: &ArgMatches<'_>,
) -> Result<Option<Order>, AllocError>
    ensures { IfOk result (λ order. option_and_then order_by (subcommand_rows_of matches.now) ≡ order) }
{
    match matches.subcommand() {
        Some((name, words)) => order_named(alloc, name, words),
        None => Ok(None),
    }
}

// The order that a command gives with its words.
fn order_named(
    alloc: Global,
    name: &str,
    words: &ArgMatches<'_>,
) -> Result<Option<Order>, AllocError>
    ensures { IfOk result (λ order. order_by (name.now, rows_of (found_of words.now)) ≡ order) }
{
    match name {
        "rehearse" => rehearsal_given(alloc, words),
        "check" => check_given(alloc, words),
        "judge" => judging_given(alloc, words),
        "table" => tabling_given(alloc, words),
        "explain" => explaining_given(alloc, words),
        "twin" => twin_given(alloc, words),
        "recover" => recovery_given(alloc, words),
        "explore" => exploring_given(alloc, words),
        "attest" => attesting_given(alloc, words),
        "serve" => serving_given(alloc, words),
        _ => Ok(None),
    }
}

// The order that the words of `rehearse` give.
fn rehearsal_given(alloc: Global, words: &ArgMatches<'_>) -> Result<Option<Order>, AllocError>
    ensures { IfOk result (λ order. order ≡ order_by (codes "rehearse", rows_of (found_of words.now))) }
{
    let tournament = text_if_any(alloc, words, &rehearse::TOURNAMENT)?;
    let prefix = text_if_any(alloc, words, &rehearse::PREFIX)?;
    let is_interactive = is_given(words, &rehearse::INTERACTIVE);
    Ok(Some(rehearsal(is_interactive, tournament, prefix)))
}

// The rehearsal of a tournament, by whether its script is played as it comes.
fn rehearsal(is_interactive: bool, tournament: Option<Text>, prefix: Option<Text>) -> Order
    ensures { result ≡ rehearsal_of is_interactive tournament prefix }
{
    if is_interactive {
        Order::RehearseInteractively { tournament, prefix }
    } else {
        Order::Rehearse { tournament, prefix }
    }
}

// The order that the words of `check` give.
fn check_given(alloc: Global, words: &ArgMatches<'_>) -> Result<Option<Order>, AllocError>
    ensures { IfOk result (λ order. order ≡ order_by (codes "check", rows_of (found_of words.now))) }
{
    Ok(Some(Order::Check {
        tournament: text_given(alloc, words, &TOURNAMENT)?,
    }))
}

// The order that the words of `judge` give.
fn judging_given(alloc: Global, words: &ArgMatches<'_>) -> Result<Option<Order>, AllocError>
    ensures { IfOk result (λ order. order ≡ judging_by (rows_of (found_of words.now))) }
{
    let replay = text_given(alloc, words, &REPLAY)?;
    let turns = text_if_any(alloc, words, &judge::TURNS)?;
    let tournament = text_if_any(alloc, words, &judge::TOURNAMENT)?;
    let game = text_if_any(alloc, words, &judge::GAME)?;
    Ok(judging(replay, turns, tournament, game))
}

// A judging of a replay by itself, or an appeal if all words of one are given.
#[tactic(auto, unfolding(crate::specs::CommandLine::judging_of))]
fn judging(
    replay: Text,
    turns: Option<Text>,
    tournament: Option<Text>,
    game: Option<Text>,
) -> Option<Order>
    ensures { result ≡ judging_of replay turns tournament game }
{
    match (turns, tournament, game) {
        (None, None, None) => Some(Order::Judge { replay }),
        (Some(turns), Some(tournament), Some(game)) => {
            appealing(replay, turns, tournament, game.as_str())
        }
        _ => None,
    }
}

// An appeal on a match whose number this word spells.
fn appealing(replay: Text, turns: Text, tournament: Text, word: &str) -> Option<Order>
    ensures { result ≡ option_map (Order.Appeal replay) (appeal_of turns tournament (number_in word.now)) }
{
    let game = number_by(judge::GAME.takes, word)? as u16;
    let appeal = Appeal {
        turns,
        tournament,
        game,
    };
    Some(Order::Appeal { replay, appeal })
}

// The order that the words of `table` give.
fn tabling_given(alloc: Global, words: &ArgMatches<'_>) -> Result<Option<Order>, AllocError>
    ensures { IfOk result (λ order. order ≡ tabling_by (rows_of (found_of words.now))) }
{
    if let Some(prefix) = text_if_any(alloc, words, &table::PREFIX)? {
        return contest_table_given(alloc, words, prefix);
    }
    match entries_given(alloc, words)? {
        Some(entries) => Ok(Some(Order::Table { entries })),
        None => Ok(None),
    }
}

// The table of a contest with this prefix, if one word alone says its tournament.
fn contest_table_given(
    alloc: Global,
    words: &ArgMatches<'_>,
    prefix: Text,
) -> Result<Option<Order>, AllocError>
    ensures { IfOk result (λ order. order ≡ contest_table_by prefix (rows_of (found_of words.now))) }
{
    if !is_one_word(words) {
        return Ok(None);
    }
    Ok(Some(Order::ContestTable {
        tournament: text_given(alloc, words, &table::ENTRIES)?,
        prefix,
    }))
}

// Whether one word stands where a table has its entries.
fn is_one_word(words: &ArgMatches<'_>) -> bool
    ensures { result ≡ is_one_word (rows_of (found_of words.now)) }
{
    match words.get_strs(table::ENTRIES.id) {
        Some(texts) => texts.len() == 1,
        None => false,
    }
}

// The order that the words of `recover` give.
fn recovery_given(alloc: Global, words: &ArgMatches<'_>) -> Result<Option<Order>, AllocError>
    ensures { IfOk result (λ order. order ≡ Some (recovery_by (rows_of (found_of words.now)))) }
{
    let file = text_given(alloc, words, &recover::FILE)?;
    match text_if_any(alloc, words, &recover::PREFIX)? {
        Some(prefix) => Ok(Some(Order::RecoverContest {
            tournament: file,
            prefix,
        })),
        None => Ok(Some(Order::Recover { part: file })),
    }
}

// The order that the words of `explain` give.
fn explaining_given(alloc: Global, words: &ArgMatches<'_>) -> Result<Option<Order>, AllocError>
    ensures { IfOk result (λ order. order ≡ order_by (codes "explain", rows_of (found_of words.now))) }
{
    match short_given(words, &explain::AGENT) {
        Some(agent) => Ok(Some(Order::Explain {
            replay: text_given(alloc, words, &REPLAY)?,
            agent,
        })),
        None => Ok(None),
    }
}

// The order that the words of `twin` give.
fn twin_given(alloc: Global, words: &ArgMatches<'_>) -> Result<Option<Order>, AllocError>
    ensures { IfOk result (λ order. order ≡ order_by (codes "twin", rows_of (found_of words.now))) }
{
    match short_given(words, &twin::NODE) {
        Some(node) => Ok(Some(Order::Twin {
            replay: text_given(alloc, words, &REPLAY)?,
            node,
        })),
        None => Ok(None),
    }
}

// The order that the words of `explore` give.
fn exploring_given(alloc: Global, words: &ArgMatches<'_>) -> Result<Option<Order>, AllocError>
    ensures { IfOk result (λ order. order ≡ order_by (codes "explore", rows_of (found_of words.now))) }
{
    let Some(exploration) = exploration_given(alloc, words)? else {
        return Ok(None);
    };
    let tournament = text_given(alloc, words, &TOURNAMENT)?;
    let is_all = is_given(words, &explore::ALL_HOLES);
    match words.get_strs(explore::MODULE.id) {
        Some(texts) => exploring(alloc, tournament, texts, is_all, exploration),
        None => exploring(alloc, tournament, &[], is_all, exploration),
    }
}

// Returns the order to explore with the modules that the words describe, for all black holes or the match's own.
// Without modules a host plays, which is possible for the match's own black holes only.
fn exploring(
    alloc: Global,
    tournament: Text,
    words: &[&str],
    is_all: bool,
    exploration: Exploration,
) -> Result<Option<Order>, AllocError>
    ensures { IfOk result (λ order. order
        ≡ exploring_of tournament (map (λ word. word.now) words.now) is_all (Some exploration)) }
{
    if words.is_empty() {
        return Ok(exploring_host(tournament, is_all, exploration));
    }
    match modules_in(alloc, words)? {
        Some(modules) => Ok(Some(exploring_modules(tournament, is_all, exploration, modules))),
        None => Ok(None),
    }
}

// The order to explore with a host, with the black holes of the match.
fn exploring_host(tournament: Text, is_all: bool, exploration: Exploration) -> Option<Order>
    ensures { result ≡ exploring_host tournament is_all (Some exploration) }
{
    if is_all {
        return None;
    }
    Some(Order::Explore {
        tournament,
        exploration,
    })
}

// The order to explore with these modules, with all black holes or those of the match.
fn exploring_modules(
    tournament: Text,
    is_all: bool,
    exploration: Exploration,
    modules: AgentModules,
) -> Order
    ensures { result ≡ exploring_modules tournament is_all exploration modules }
{
    if is_all {
        Order::ExploreAllHoles {
            tournament,
            modules,
            exploration,
        }
    } else {
        Order::ExploreModules {
            tournament,
            modules,
            exploration,
        }
    }
}

// The order that the words of `attest` give.
fn attesting_given(alloc: Global, words: &ArgMatches<'_>) -> Result<Option<Order>, AllocError>
    ensures { IfOk result (λ order. order ≡ order_by (codes "attest", rows_of (found_of words.now))) }
{
    let Some(wakeups) = short_given(words, &explore::WAKEUPS) else {
        return Ok(None);
    };
    let replay = text_given(alloc, words, &REPLAY)?;
    match words.get_strs(explore::MODULE.id) {
        Some(texts) => attesting(alloc, replay, texts, wakeups),
        None => attesting(alloc, replay, &[], wakeups),
    }
}

// The order to compare a replay with the modules that the words describe. Without modules there is none.
fn attesting(
    alloc: Global,
    replay: Text,
    words: &[&str],
    wakeups: u16,
) -> Result<Option<Order>, AllocError>
    ensures { IfOk result (λ order. order
        ≡ attesting_of replay (map (λ word. word.now) words.now) (Some wakeups)) }
{
    if words.is_empty() {
        return Ok(None);
    }
    match modules_in(alloc, words)? {
        Some(modules) => Ok(Some(Order::Attest {
            replay,
            modules,
            wakeups,
        })),
        None => Ok(None),
    }
}

// The order that the words of `serve` give.
fn serving_given(alloc: Global, words: &ArgMatches<'_>) -> Result<Option<Order>, AllocError>
    ensures { IfOk result (λ order. order ≡ order_by (codes "serve", rows_of (found_of words.now))) }
{
    match hosting_given(alloc, words)? {
        Some(hosting) => Ok(Some(Order::Serve {
            tournament: text_given(alloc, words, &TOURNAMENT)?,
            hosting,
        })),
        None => Ok(None),
    }
}

/// Whether an option that takes no word is given.
pub(crate) fn is_given(words: &ArgMatches<'_>, argument: &Argument) -> bool
    ensures { result ≡ is_given argument.now.id.now (rows_of (found_of words.now)) }
{
    words.get_str(argument.id).unwrap_or("") == "true"
}

// The exploration that the words of `explore` say.
fn exploration_given(
    alloc: Global,
    words: &ArgMatches<'_>,
) -> Result<Option<Exploration>, AllocError>
    ensures { IfOk result (λ exploration. exploration ≡ exploration_by (rows_of (found_of words.now))) }
{
    let Some(game) = short_given(words, &explore::GAME) else {
        return Ok(None);
    };
    let Some(states) = number_given(words, &explore::STATES) else {
        return Ok(None);
    };
    let Some(wakeups) = short_given(words, &explore::WAKEUPS) else {
        return Ok(None);
    };
    let Some(drawing) = drawing_given(alloc, words)? else {
        return Ok(None);
    };
    Ok(Some(Exploration {
        game,
        states,
        wakeups,
        drawing,
    }))
}

// The schedules that the words of `explore` have drawn, if any.
fn drawing_given(
    alloc: Global,
    words: &ArgMatches<'_>,
) -> Result<Option<Option<Drawing>>, AllocError>
    ensures { IfOk result (λ drawing. drawing ≡ drawing_by (rows_of (found_of words.now))) }
{
    let draws = text_if_any(alloc, words, &explore::DRAWS)?;
    let seed = text_if_any(alloc, words, &explore::SEED)?;
    let scheduler = text_if_any(alloc, words, &explore::SCHEDULER)?;
    let objective = text_if_any(alloc, words, &explore::OBJECTIVE)?;
    Ok(drawing(draws, seed, scheduler, objective))
}

// The hosting that the words of `serve` say.
fn hosting_given(alloc: Global, words: &ArgMatches<'_>) -> Result<Option<Hosting>, AllocError>
    ensures { IfOk result (λ hosting. hosting ≡ hosting_by (rows_of (found_of words.now))) }
{
    let Some(port) = short_given(words, &serve::PORT) else {
        return Ok(None);
    };
    let Some(sessions) = number_given(words, &serve::SESSIONS) else {
        return Ok(None);
    };
    let Some(turns) = number_given(words, &serve::TURNS) else {
        return Ok(None);
    };
    let Some(pause) = number_given(words, &serve::PAUSE) else {
        return Ok(None);
    };
    let Some(grace) = number_given(words, &serve::GRACE) else {
        return Ok(None);
    };
    let Some(gather) = number_given(words, &serve::GATHER) else {
        return Ok(None);
    };
    Ok(Some(Hosting {
        port,
        sessions,
        turns,
        pause,
        grace,
        gather,
        early: is_given(words, &serve::EARLY),
        log: is_given(words, &serve::LOG),
        address: text_given(alloc, words, &serve::ADDRESS)?,
        prefix: text_given(alloc, words, &serve::PREFIX)?,
    }))
}

// Returns the text of an optional word.
fn text_if_any(
    alloc: Global,
    words: &ArgMatches<'_>,
    argument: &Argument,
) -> Result<Option<Text>, AllocError>
    ensures { IfOk result (λ found. found ≡ first_of argument.now.id.now (rows_of (found_of words.now))) }
{
    match words.get_str(argument.id) {
        Some(found) => Ok(Some(text(alloc, found)?)),
        None => Ok(None),
    }
}

// Returns the text of a required word. Clap refuses a command line without it.
fn text_given(
    alloc: Global,
    words: &ArgMatches<'_>,
    argument: &Argument,
) -> Result<Text, AllocError>
    ensures { IfOk result (λ found. found ≡ text_in argument.now.id.now (rows_of (found_of words.now))) }
{
    text(alloc, words.get_str(argument.id).unwrap_or(""))
}

// Returns the number of a required word.
fn number_given(words: &ArgMatches<'_>, argument: &Argument) -> Option<u32>
    ensures { result ≡ row_number argument.now (rows_of (found_of words.now)) }
{
    number_by(argument.takes, words.get_str(argument.id).unwrap_or(""))
}

// The same of a number of 16 bits.
fn short_given(words: &ArgMatches<'_>, argument: &Argument) -> Option<u16>
    requires { most_of argument.now.takes < 2 ^ 16 }
    ensures { result ≡ row_number argument.now (rows_of (found_of words.now)) }
{
    match number_given(words, argument) {
        Some(value) => Some(value as u16),
        None => None,
    }
}

/// Returns the number that a word spells, if the word is a number.
pub(crate) fn number_by(takes: Takes, word: &str) -> Option<u32>
    ensures { result ≡ number_by takes word.now }
{
    match takes {
        Takes::Number { least, most } => number_within(least, most, word),
        _ => None,
    }
}

// The entries of a table.
fn entries_given(alloc: Global, words: &ArgMatches<'_>) -> Result<Option<Entries>, AllocError>
    ensures { IfOk result (λ entries. entries ≡ entries_in (texts_in (codes "entry") (rows_of (found_of words.now)))) }
{
    match words.get_strs(table::ENTRIES.id) {
        Some(texts) => entries_in(alloc, texts),
        None => entries_in(alloc, &[]),
    }
}
