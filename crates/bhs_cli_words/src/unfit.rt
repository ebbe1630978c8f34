//! The message on a word that its command does not accept.

use crate::commands::{Argument, COMMANDS, Need, Takes, attest, explore, judge, table};
use crate::drawings::{objective_in, scheduler_in};
use crate::given::{is_given, number_by};
use crate::orders::MAX_ARGUMENTS;
use crate::words::{entry_in, module_in};
use clap::ArgMatches;
use std::alloc::{AllocError, Global};

/// Tells the first word that its command does not take, in the form of clap's own texts.
pub(crate) fn unfit_text(alloc: Global, matches: &ArgMatches<'_>) -> Result<String, AllocError> {
    let Some((name, words)) = matches.subcommand() else {
        return Ok(String::new(alloc));
    };
    let reason = reason(alloc, name, words)?;
    format!(in alloc; "error: {reason}\n\nFor more information, try '--help'.\n")
}

// Words that are always there come first, then those that do not go together, then the others.
fn reason(alloc: Global, name: &str, words: &ArgMatches<'_>) -> Result<String, AllocError> {
    let arguments = arguments_of(name);
    if let Some(told) = first_unfit(alloc, words, arguments, true)? {
        return Ok(told);
    }
    if let Some(told) = apart(name, words) {
        return String::from_str(alloc, told);
    }
    match first_unfit(alloc, words, arguments, false)? {
        Some(told) => Ok(told),
        None => Ok(String::new(alloc)),
    }
}

fn arguments_of(name: &str) -> &'static [Argument] {
    for command in &COMMANDS {
        if command.name == name {
            return command.arguments;
        }
    }
    &[]
}

// What is told of words that do not go together.
fn apart(name: &str, words: &ArgMatches<'_>) -> Option<&'static str> {
    match name {
        "judge" if !is_whole_appeal(words) => Some(judge::TOGETHER),
        "table" if is_there(words, &table::PREFIX) => Some(table::ONE_WORD),
        "attest" if !is_there(words, &explore::MODULE) => Some(attest::NEED_MODULE),
        "explore" if lacks_module(words) => Some(explore::NEED_MODULE),
        "explore" if lacks_draws(words) => Some(explore::NEED_DRAWS),
        _ => None,
    }
}

fn lacks_module(words: &ArgMatches<'_>) -> bool {
    is_given(words, &explore::ALL_HOLES) && !is_there(words, &explore::MODULE)
}

fn lacks_draws(words: &ArgMatches<'_>) -> bool {
    !is_there(words, &explore::DRAWS)
        && (is_there(words, &explore::SEED)
            || is_there(words, &explore::SCHEDULER)
            || is_there(words, &explore::OBJECTIVE))
}

fn is_whole_appeal(words: &ArgMatches<'_>) -> bool {
    is_there(words, &judge::TURNS)
        && is_there(words, &judge::TOURNAMENT)
        && is_there(words, &judge::GAME)
}

fn is_there(words: &ArgMatches<'_>, argument: &Argument) -> bool {
    words.get_str(argument.id).is_some()
}

// Reports the first invalid word among the required words or among the others.
fn first_unfit(
    alloc: Global,
    words: &ArgMatches<'_>,
    arguments: &[Argument],
    always: bool,
) -> Result<Option<String>, AllocError> {
    for argument in arguments {
        if is_always_there(argument.need) == always {
            for word in words.get_strs(argument.id).unwrap_or(&[]) {
                if !is_fit(alloc, argument.takes, word)? {
                    return Ok(Some(unfit_word(alloc, argument, word)?));
                }
            }
        }
    }
    Ok(None)
}

fn is_always_there(need: Need) -> bool {
    matches!(need, Need::Required | Need::Default(_))
}

fn is_fit(alloc: Global, takes: Takes, word: &str) -> Result<bool, AllocError> {
    match takes {
        Takes::Text => Ok(true),
        Takes::Number { .. } => Ok(number_by(takes, word).is_some()),
        Takes::Scheduler => Ok(scheduler_in(word).is_some()),
        Takes::Objective => Ok(objective_in(word).is_some()),
        Takes::TableEntry => Ok(entry_in(alloc, word)?.is_some()),
        Takes::Module => Ok(module_in(alloc, word)?.is_some()),
    }
}

fn unfit_word(alloc: Global, argument: &Argument, word: &str) -> Result<String, AllocError> {
    let called = called(alloc, argument)?;
    let wanted = wanted(alloc, argument.takes)?;
    format!(in alloc; "invalid value '{word}' for '{called}': {wanted}")
}

// How clap calls a word to a user.
fn called(alloc: Global, argument: &Argument) -> Result<String, AllocError> {
    let name = argument.name;
    match (argument.option, argument.need) {
        (Some(option), _) => format!(in alloc; "--{option} <{name}>"),
        (None, Need::OneOrMore) => format!(in alloc; "<{name}>..."),
        (None, _) => format!(in alloc; "<{name}>"),
    }
}

// What a word should be.
fn wanted(alloc: Global, takes: Takes) -> Result<String, AllocError> {
    match takes {
        Takes::Text => Ok(String::new(alloc)),
        Takes::Number { least, most } => {
            format!(in alloc; "it is no number from {least} to {most}")
        }
        Takes::Scheduler => {
            let names = explore::SCHEDULERS;
            format!(in alloc; "it is none of {names}")
        }
        Takes::Objective => {
            let names = explore::HUNTS;
            format!(in alloc; "it is none of {names}")
        }
        Takes::TableEntry => String::from_str(
            alloc,
            "a team is 1 to 16 of a to z, 0 to 9 and -, and = follows it",
        ),
        Takes::Module => {
            format!(in alloc;
                "behind : are at most {MAX_ARGUMENTS} numbers from 0 to 4294967295, with commas between them"
            )
        }
    }
}
