//! The command line as clap is told it, by the rows of its commands.

ghost use Rattle.std.specs.Prelude.{◌≡◌, ◌++◌, ◌∷◌, [], IfOk, List, codes, false, fold, map};
ghost use Rattle.bhs_cli_words.specs.Arguments as specs;
ghost use Rattle.bhs_cli_words.specs.Arguments.{IsTold};
ghost use Rattle.bhs_cli_words.specs.CommandLine.{arena};
ghost use Rattle.bhs_cli_words.specs.Told.{needed_by, rule_by, shape_by};
ghost use Rattle.clap.specs.Words.{App, Rule, Shape, Text, app_of, rule_of, with_subcommand};

use crate::commands::{Argument, COMMANDS, Need, Subcommand};
use crate::help;
use clap::{Arg, ArgAction, Command};
use std::alloc::{AllocError, Global};

// The version of the project, as the file VERSION has it.
const VERSION: &str = "0.9.0";

/// Returns the declaration of all commands of the program. The words start after the program's name.
pub(crate) fn command_line<'a>(alloc: Global) -> Result<Command<'a>, AllocError>
    ensures { IfOk result (λ command. app_of command ≡ arena) }
{
    told_of_all(alloc, &COMMANDS)
}

// The program with these commands.
fn told_of_all<'a>(alloc: Global, commands: &[Subcommand]) -> Result<Command<'a>, AllocError>
    ensures { IfOk result (λ command. app_of command
        ≡ fold with_subcommand (specs.program (codes "arena")) (map shape_by commands.now)) }
{
    let mut line = program(alloc);
    for command in commands {
        line = with_command(line, told(alloc, command));
    }
    line
}

fn program<'a>(alloc: Global) -> Result<Command<'a>, AllocError>
    ensures { IfOk result (λ command. app_of command ≡ specs.program (codes "arena")) }
{
    Command::new(alloc, "arena")
        .version(VERSION)
        .about(help::ARENA)
        .long_about(help::ARENA_AT_LENGTH)
        .no_binary_name(true)
        .arg_required_else_help(true)
        .subcommand_required(true)
        .bin_name("arena")
}

// One command more, if memory lasted for both. It takes results, so that its callers have no `?` while they hold a
// command: each such one takes long to prove.
fn with_command<'a>(
    line: Result<Command<'a>, AllocError>,
    command: Result<Command<'a>, AllocError>,
) -> Result<Command<'a>, AllocError>
    ensures { (app : App) → (shape : Shape) → IfOk line.entry (λ old. app_of old ≡ app)
        → IfOk command.entry (λ more. IsTold more shape)
        → IfOk result (λ new. app_of new ≡ with_subcommand app shape) }
{
    line?.subcommand(command?)
}

// A command with its words and options.
fn told<'a>(alloc: Global, subcommand: &Subcommand) -> Result<Command<'a>, AllocError>
    ensures { IfOk result (λ command. IsTold command (shape_by subcommand.now)) }
{
    let mut command = Ok(command(alloc, subcommand));
    for argument in subcommand.arguments {
        command = with(command, arg(alloc, argument));
    }
    command
}

// A command that takes no words yet, with the texts of its help.
fn command<'a>(alloc: Global, subcommand: &Subcommand) -> Command<'a>
    ensures { IsTold result (specs.command subcommand.now.name.now []) }
{
    Command::new(alloc, subcommand.name)
        .about(subcommand.help.about)
        .long_about(subcommand.help.at_length)
        .after_long_help(subcommand.help.example)
}

// One argument more, if memory lasted so far. It takes a result as `with_command` does.
fn with<'a>(
    command: Result<Command<'a>, AllocError>,
    arg: Arg<'a>,
) -> Result<Command<'a>, AllocError>
    ensures { (name : Text) → (rules : List Rule) → (rule : Rule)
        → IfOk command.entry (λ old. IsTold old (specs.command name rules)) → rule_of arg.entry ≡ rule
        → arg.entry.global ≡ false → IfOk result (λ new. IsTold new (specs.command name (rules ++ rule ∷ []))) }
{
    command?.arg(arg)
}

// A word or an option, by its row.
fn arg<'a>(alloc: Global, argument: &Argument) -> Arg<'a>
    ensures rule { rule_of result ≡ rule_by argument.now }
    ensures local { result.global ≡ false }
{
    let arg = needed(alloc, argument);
    match argument.option {
        Some(option) => arg.long(option),
        None => arg,
    }
}

// Declares a required or optional word, before its position is known.
fn needed<'a>(alloc: Global, argument: &Argument) -> Arg<'a>
    ensures rule { rule_of result ≡ needed_by argument.now.id.now argument.now.need }
    ensures local { result.global ≡ false }
{
    let arg = Arg::new(alloc, argument.id).help(argument.help);
    let name = argument.name;
    match argument.need {
        Need::Required => arg.value_name(name).required(true),
        Need::OneOrMore => arg
            .value_name(name)
            .required(true)
            .action(ArgAction::Append),
        Need::Optional => arg.value_name(name),
        Need::AnyNumber => arg.value_name(name).action(ArgAction::Append),
        Need::Default(word) => arg.value_name(name).default_value(word),
        Need::Switch => arg.action(ArgAction::SetTrue),
    }
}
