//! Serving the tournament of a file.

ghost use Rattle.std.specs.Prelude.{◌≡◌, IfOk, IfErr, string_bytes};
ghost use Rattle.bhs_stream.specs.Streams.{known_takes};
ghost use Rattle.bhs_cli.specs.Fault.{IsOfFault};
ghost use Rattle.bhs_cli_serve.specs.Contests.{Serves, listening};

use crate::contest_host::{ContestFiles, host};
use crate::machines::Machine;
use crate::options::options_of;
use crate::parts::{PartFiles, begin_parts};
use bhs_cli::{DONE, Fault, report, show_made, told_lineup_of};
use bhs_cli_words::Hosting;
use bhs_net::Memory;
use bhs_server::can_start;
use bhs_setups::{Lineup, Ready};
use bhs_stream::Output;
use std::alloc::Global;
use std::io::{ErrorKind, Write};
use std::net::{IpAddr, Net, SocketAddr, TcpListener, TcpStream};

// How many threads a contest has beside those of its matches and sessions: those that end it, look at it, write its log
// and hear its operator, and one for a client.
const OTHERS: usize = 5;

/// Reads a tournament and its networks, listens on a port of this machine, begins the parts of the replays and locks
/// them, says that it listens, and hosts the contest. The answer is the exit status. A port that is in use, a part that
/// another server writes, and a lack of threads leave all files alone, so that a second server does not touch those of
/// the first.
pub fn serve_named<
    R: Machine + Net<Listener = TcpListener, Stream = TcpStream>,
    W: Output,
    E: Write,
>(alloc: Global, rt: &R, name: &str, hosting: &Hosting, writer: &mut W, errors: &mut E) -> u8
    ensures { Serves (known_takes R.File.contents) W.takes W.flushes hosting.now.port writer.old writer.new result }
{
    let hears = rt.has_input();
    let lineup = match told_lineup_of(alloc, rt, name, errors) {
        Ok(lineup) => lineup,
        Err(status) => return status,
    };
    let mut options = options_of(name, hosting);
    options.hears = hears;
    if options.log {
        warn(options.sessions, &lineup.ready, errors);
    }
    let listener = match listener_on(rt, hosting.address.as_str(), hosting.port, errors) {
        Ok(listener) => listener,
        Err(status) => return status,
    };
    let parts = match begun(alloc, rt, options.prefix, &lineup, errors) {
        Ok(parts) => parts,
        Err(status) => return status,
    };
    let status = show_made(listening(alloc, hosting.port), writer, errors);
    if status != DONE {
        return status;
    }
    let contest_files = ContestFiles { listener, parts };
    host(alloc, rt, &contest_files, lineup, &options, writer, errors)
}

// Tells the operator if fewer sessions may go on beside each other than there are agents.
fn warn<E: Write>(sessions: u32, ready: &[Ready], errors: &mut E) {
    let mut agents: u32 = 0;
    for one in ready {
        agents = agents.saturating_add(u32::from(one.game.setup().agents));
    }
    if sessions < agents {
        let _ = writeln!(
            errors,
            "serve: --sessions {sessions} is below the number of agents, {agents}"
        );
    }
}

// Sees that there are threads for the matches, and begins the parts of their replays: these, or the exit status of a
// fault that was reported.
fn begun<R: Machine, E: Write>(
    alloc: Global,
    rt: &R,
    prefix: &str,
    lineup: &Lineup,
    errors: &mut E,
) -> Result<PartFiles, u8>
    ensures { IfErr result IsOfFault }
{
    if !can_start(rt, lineup.ready.len().saturating_add(OTHERS)) {
        return Err(report("serve", Fault::Threads, errors));
    }
    begin_parts(alloc, rt, prefix, lineup, errors)
}

// Listens on a port of an address of this machine: the listener, or the exit status of a fault that was reported.
fn listener_on<R: Net<Listener = TcpListener, Stream = TcpStream>, E: Write>(
    rt: &R,
    address: &str,
    port: u16,
    errors: &mut E,
) -> Result<TcpListener, u8>
    ensures { IfErr result IsOfFault }
{
    let Ok(address) = address.parse::<IpAddr>() else {
        return Err(report_unheard(ErrorKind::AddrNotAvailable, errors));
    };
    match TcpListener::bind(rt, SocketAddr::from((address, port))) {
        Ok(listener) => Ok(listener),
        Err(error) => Err(report_unheard(error.kind(), errors)),
    }
}

// Reports why no client can connect, and in a second line what helps. The answer is the exit status.
fn report_unheard<E: Write>(kind: ErrorKind, errors: &mut E) -> u8
    ensures { IsOfFault result }
{
    if kind == ErrorKind::OutOfMemory {
        return report("serve", Fault::Memory, errors);
    }
    let status = report("serve", Fault::Listen, errors);
    let _ = writeln!(errors, "  {}", what_helps(kind));
    status
}

fn what_helps(kind: ErrorKind) -> &'static str {
    match kind {
        ErrorKind::AddrInUse => {
            "another program listens on this port: end it, or give another --port"
        }
        ErrorKind::PermissionDenied => {
            "this user may not listen on this port: give a --port from 1024 on"
        }
        ErrorKind::AddrNotAvailable => {
            "this machine has no such address: give another --address, 0.0.0.0 for all of IPv4"
        }
        _ => "give another --port or --address",
    }
}

fn listening(alloc: Global, port: u16) -> Result<String, Memory>
    ensures { IfOk result (λ text. string_bytes text ≡ listening port) }
{
    format!(in alloc; "listening {port}\n")
}
