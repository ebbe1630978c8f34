//! Carrying out the order of the command line.

ghost use Rattle.std.specs.Prelude.{◌≡◌, ◌⊎◌, map};
ghost use Rattle.bhs_stream.specs.Streams.{known_takes};
ghost use Rattle.bhs_cli.specs.declared.reporting.statuses.TheConstants.{NO_MEMORY, REFUSED_WORDS};
ghost use Rattle.bhs_cli_run.specs.Program.{IsStatus, Obeys, Runs};

use bhs_cli::{Fault, REFUSED_WORDS, check, print_recovered, report, show_text};
use bhs_cli_attest::attest_named;
use bhs_cli_explore::{explore_holes_named, explore_modules_named, explore_named};
use bhs_cli_rehearse::{rehearse_interactively_named, rehearse_named};
use bhs_cli_results::{
    print_appealed_verdict, print_contest_table, print_past, print_table, print_twin, print_verdict,
};
use bhs_cli_serve::{Machine, recover_named, serve_named};
use bhs_cli_words::{Order, Parsed, order_of};
use bhs_stream::{Input, Output, send};
use bhs_terminal::visible;
use std::alloc::Global;
use std::convert::AsStr;
use std::io::Write;
use std::net::{Net, TcpListener, TcpStream};

/// Does what the words after the program's name order, and answers the exit status. Files are opened, threads started
/// and sockets listened on through `rt`; of the orders only `serve` and a search with all black holes, which runs on
/// threads, do more with it than open files. Output goes to `writer`; a fault goes to `errors`, as a line `WHERE:
/// WHAT`.
///
/// `Runs` goes by the cases of the words: what was read and written, call by call, and with which status. For each file
/// that is read it says which text the file is taken for, and for each file that is written which bytes it took. It
/// says nothing of what goes to `errors`.
pub fn run<
    S: AsStr,
    R: Machine + Net<Listener = TcpListener, Stream = TcpStream>,
    I: Input,
    W: Output,
    E: Write,
>(alloc: Global, rt: &R, words: &[S], reader: &mut I, writer: &mut W, errors: &mut E) -> u8
    ensures runs { Runs (known_takes R.File.contents) I.gives W.takes W.flushes (map S.text words.now) reader.old
        reader.new writer.old writer.new result }
    ensures status { IsStatus result }
{
    match order_of(alloc, words) {
        Ok(Parsed::Ordered(order)) => obey(alloc, rt, order, reader, writer, errors),
        Ok(Parsed::Shown { text }) => show_text(text.as_str(), writer, errors),
        Ok(Parsed::Refused { text }) => report_refusal(alloc, text.as_str(), errors),
        Err(_) => report("arena", Fault::Memory, errors),
    }
}

// Tells why the words are refused. They may be names of files that a stranger chose.
fn report_refusal<E: Write>(alloc: Global, text: &str, errors: &mut E) -> u8
    ensures { result ≡ REFUSED_WORDS ⊎ result ≡ NO_MEMORY }
{
    let Ok(text) = visible(alloc, text) else {
        return report("arena", Fault::Memory, errors);
    };
    let _ = send(errors, text.as_bytes());
    REFUSED_WORDS
}

fn obey<
    R: Machine + Net<Listener = TcpListener, Stream = TcpStream>,
    I: Input,
    W: Output,
    E: Write,
>(alloc: Global, rt: &R, order: Order, reader: &mut I, writer: &mut W, errors: &mut E) -> u8
    ensures { Obeys (known_takes R.File.contents) I.gives W.takes W.flushes order reader.old reader.new writer.old
        writer.new result }
{
    match order {
        Order::Rehearse { tournament, prefix } => {
            rehearse_named(alloc, rt, tournament, prefix, reader, writer, errors)
        }
        Order::RehearseInteractively { tournament, prefix } => {
            rehearse_interactively_named(alloc, rt, tournament, prefix, reader, writer, errors)
        }
        Order::Check { tournament } => check(alloc, rt, tournament.as_str(), writer, errors),
        Order::Judge { replay } => print_verdict(alloc, rt, replay.as_str(), writer, errors),
        Order::Appeal { replay, appeal } => {
            print_appealed_verdict(alloc, rt, replay.as_str(), &appeal, writer, errors)
        }
        Order::Table { entries } => print_table(alloc, rt, entries.all(), writer, errors),
        Order::ContestTable { tournament, prefix } => print_contest_table(
            alloc,
            rt,
            tournament.as_str(),
            prefix.as_str(),
            writer,
            errors,
        ),
        Order::Explain { replay, agent } => {
            let kind = rt.output_kind();
            print_past(alloc, rt, replay.as_str(), agent, kind, writer, errors)
        }
        Order::Twin { replay, node } => {
            print_twin(alloc, rt, replay.as_str(), node, writer, errors)
        }
        Order::Recover { part } => { print_recovered(alloc, rt, part.as_str(), writer, errors) }
        Order::RecoverContest { tournament, prefix } => recover_named(
            alloc,
            rt,
            tournament.as_str(),
            prefix.as_str(),
            writer,
            errors,
        ),
        Order::Explore {
            tournament,
            exploration,
        } => explore_named(alloc, rt, tournament, exploration, reader, writer, errors),
        Order::ExploreModules {
            tournament,
            modules,
            exploration,
        } => explore_modules_named(alloc, rt, tournament, modules, exploration, writer, errors),
        Order::ExploreAllHoles {
            tournament,
            modules,
            exploration,
        } => explore_holes_named(alloc, rt, tournament, modules, exploration, writer, errors),
        Order::Attest {
            replay,
            modules,
            wakeups,
        } => attest_named(
            alloc,
            rt,
            replay.as_str(),
            &modules,
            wakeups,
            writer,
            errors,
        ),
        Order::Serve {
            tournament,
            hosting,
        } => serve_named(alloc, rt, tournament.as_str(), &hosting, writer, errors),
    }
}
