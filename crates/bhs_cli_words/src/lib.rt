//! The command line of the program: from its words to an order.
#![tactic(auto)]

ghost use Rattle.std.specs.Prelude.{◌≡◌, [], IfOk, IsErr, IsTrue, map};
ghost use Rattle.bhs_cli_words.specs.CommandLine.{AsksHelp, AsksVersion, Explains, Parses, Says, is_refused};
ghost use Rattle.bhs_cli_words.specs.CommandLine.{is_shown};
ghost use Rattle.bhs_cli_words.specs.declared.Parsed.TheVariants.{Ordered};
ghost use Rattle.bhs_cli_words.specs.declared.orders.Order.{Order as OrderData};
ghost use Rattle.clap.specs.Words.{kind_of};
ghost use Rattle.clap.specs.declared.error.kind.ErrorKind.TheVariants.{OutOfMemory};

mod commands;
mod declared;
mod drawings;
mod given;
mod help;
mod orders;
mod unfit;
mod words;

use clap::Error;
use clap::error::ErrorKind;
use given::order_given;
pub use orders::{
    AgentModule, AgentModules, Appeal, Drawing, Entries, Exploration, Hosting, MAX_ARGUMENTS,
    MAX_SESSIONS, ModuleArguments, Order, TableEntry,
};
use std::alloc::{AllocError, Global};
use std::convert::AsStr;
use unfit::unfit_text;
pub use words::{module_in, number_within};

/// What a command line comes to.
#[derive(Drop)]
pub enum Parsed {
    /// The words give an order.
    Ordered(Order),
    /// The words ask for help or for the version: `text` is for standard output, and the exit status is 0.
    Shown { text: String },
    /// The words give no order: `text` is for standard error, and the exit status is 2.
    Refused { text: String },
}

/// Reads the words that stand after the program's name.
///
/// `Parses` says which answer the words get, and the clauses after it say so of the plainest ones. A name that begins
/// with a hyphen has to stand behind the mark `--`.
/// After a first word `help` it leaves `Shown` and `Refused` open, and tests show which comes. The
/// texts are those that `clap` writes, but where a number or an entry of a table is refused, and are shown by tests
/// alone. The only error is that memory ran out.
pub fn order_of<S: AsStr>(alloc: Global, words: &[S]) -> Result<Parsed, AllocError>
    ensures answers { IfOk result (Parses (map S.text words.now)) }
    ensures plain { IfOk result (λ answer. (order : OrderData) →
        Says (map S.text words.now) order → answer ≡ Ordered order) }
    ensures help { IfOk result (λ answer.
        AsksHelp (map S.text words.now) → IsTrue (is_shown answer)) }
    ensures version { IfOk result (λ answer.
        AsksVersion (map S.text words.now) → IsTrue (is_shown answer)) }
    ensures no_word { IfOk result (λ answer.
        map S.text words.now ≡ [] → IsTrue (is_refused answer)) }
{
    let command = declared::command_line(alloc)?;
    match command.try_get_matches_from(words) {
        Ok(matches) => match order_given(alloc, &matches)? {
            Some(order) => Ok(Parsed::Ordered(order)),
            None => Ok(Parsed::Refused {
                text: unfit_text(alloc, &matches)?,
            }),
        },
        Err(error) => explained(alloc, &error),
    }
}

// Clap's own text on an error, for the stream that clap says.
fn explained(alloc: Global, error: &Error) -> Result<Parsed, AllocError>
    ensures ok { IfOk result (Explains (kind_of error.now)) }
    ensures memory { kind_of error.now ≡ OutOfMemory → IsErr result }
{
    if error.kind() == ErrorKind::OutOfMemory {
        return Err(AllocError);
    }
    let text = format!(in alloc; "{error}")?;
    if error.use_stderr() {
        Ok(Parsed::Refused { text })
    } else {
        Ok(Parsed::Shown { text })
    }
}
