//! What a word of a command says beyond its text.

ghost use Rattle.std.specs.Prelude.{◌≡◌, ◌≤◌, IfOk, IfSome, map, option_map};
ghost use Rattle.std.specs.Char.{is_ascii_digit};
ghost use Rattle.std.specs.List.{list_all};
ghost use Rattle.bhs_cli_words.specs.Arguments.{number_within};
ghost use Rattle.bhs_cli_words.specs.CommandLine.{entries_in, entry_in};
ghost use Rattle.bhs_cli_words.specs.Exploring.{arguments_within, module_in, modules_in};

use crate::orders::{
    AgentModule, AgentModules, Entries, MAX_ARGUMENTS, ModuleArguments, TableEntry,
};
use bhs_text::{Text, is_team};
use std::alloc::{AllocError, Global};

/// The number from `least` to `most` that a word spells in decimal digits. Zeros may stand in front.
pub fn number_within(least: u32, most: u32, word: &str) -> Option<u32>
    ensures number { result ≡ number_within least most word.now }
    ensures range { IfSome result (λ number. (least ≤ number) × (number ≤ most)) }
{
    if !is_digits(word) {
        return None;
    }
    let number = word.parse().ok()?;
    if least <= number && number <= most {
        Some(number)
    } else {
        None
    }
}

fn is_digits(word: &str) -> bool
    ensures { result ≡ list_all is_ascii_digit word.now }
{
    word.as_bytes().iter().all(|byte| byte.is_ascii_digit())
}

/// The team and the name of its replay that a word `TEAM=REPLAY` says.
pub(crate) fn entry_in(alloc: Global, word: &str) -> Result<Option<TableEntry>, AllocError>
    ensures { IfOk result (λ entry. entry ≡ entry_in word.now) }
{
    let Some((team, replay)) = word.split_once('=') else {
        return Ok(None);
    };
    if !is_team(team) {
        return Ok(None);
    }
    Ok(Some(TableEntry {
        team: text(alloc, team)?,
        replay: text(alloc, replay)?,
    }))
}

/// Returns the entries that the words describe, or None if a word describes no entry.
pub(crate) fn entries_in(alloc: Global, words: &[&str]) -> Result<Option<Entries>, AllocError>
    ensures { IfOk result (λ entries. entries ≡ entries_in (map (λ word. word.now) words.now)) }
{
    let mut entries = Vec::new(alloc);
    for word in words {
        match entry_in(alloc, word)? {
            Some(entry) => entries.push(entry)?,
            None => return Ok(None),
        }
    }
    Ok(Some(Entries::from(entries)))
}

/// The module and its arguments that a word `FILE[:N,..]` says; None if it says none.
pub fn module_in(alloc: Global, word: &str) -> Result<Option<AgentModule>, AllocError>
    ensures { IfOk result (λ agent_module. agent_module ≡ module_in word.now) }
{
    let Some((file, numbers)) = word.split_once(':') else {
        return Ok(Some(AgentModule {
            file: text(alloc, word)?,
            arguments: ModuleArguments::from(Vec::new(alloc)),
        }));
    };
    match arguments_within(alloc, MAX_ARGUMENTS, numbers)? {
        Some(arguments) => Ok(Some(AgentModule {
            file: text(alloc, file)?,
            arguments: ModuleArguments::from(arguments),
        })),
        None => Ok(None),
    }
}

/// Returns the modules that the words describe, or None if a word describes no module.
pub(crate) fn modules_in(alloc: Global, words: &[&str]) -> Result<Option<AgentModules>, AllocError>
    ensures { IfOk result (λ modules. modules ≡ modules_in (map (λ word. word.now) words.now)) }
{
    let mut modules = Vec::new(alloc);
    for word in words {
        match module_in(alloc, word)? {
            Some(agent_module) => modules.push(agent_module)?,
            None => return Ok(None),
        }
    }
    Ok(Some(AgentModules::from(modules)))
}

// At most `most` numbers with commas between them, and one at least.
#[tactic(auto, using(crate::proofs::CommaLemmas::more), unfolding(crate::specs::Exploring::arguments_within))]
fn arguments_within(alloc: Global, most: u32, word: &str) -> Result<Option<Vec<u32>>, AllocError>
    ensures { IfOk result (λ numbers. option_map (λ all. all.items) numbers ≡ arguments_within most word.now) }
{
    if most == 0 {
        return Ok(None);
    }
    let Some((first, others)) = word.split_once(',') else {
        return match number_within(0, u32::MAX, word) {
            Some(number) => Ok(Some(Vec::from_slice(alloc, &[number])?)),
            None => Ok(None),
        };
    };
    let Some(number) = number_within(0, u32::MAX, first) else {
        return Ok(None);
    };
    let Some(mut numbers) = arguments_within(alloc, most - 1, others)? else {
        return Ok(None);
    };
    numbers.insert(0, number)?;
    Ok(Some(numbers))
}

/// A copy of a text.
pub(crate) fn text(alloc: Global, text: &str) -> Result<Text, AllocError>
    ensures { IfOk result (λ copy. copy ≡ text.now) }
{
    Ok(Text::new(alloc, text)?)
}
