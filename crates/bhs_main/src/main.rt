//! The program `arena`: serves contests, rehearses the matches of a tournament by a script, and says of replays what
//! came of their matches, and why.
#![tactic(auto)]

ghost use Rattle.std.specs.Prelude.{IfOk};
ghost use Rattle.bhs_cli_run.specs.Program.{IsStatus};

use bhs_cli::{Fault, report};
use bhs_cli_run::{run, words_of};
use bhs_cli_serve::Machine;
use std::alloc::Global;
use std::io;
use std::io::{BufWriter, Input, Print, Write};
use std::net::{Net, TcpListener, TcpStream};
use std::process::ExitCode;
use std::rt::Env;

// How many bytes of output are written at once.
const OUTPUT: usize = 32 * 1024;

fn main(rt: HostRuntime) -> ExitCode {
    ExitCode::from(match started(&rt, rt.alloc(), &mut rt.stderr()) {
        Ok(status) => status,
        Err(error) => report("arena", Fault::from(error), &mut rt.stderr()),
    })
}

fn started<
    R: Machine + Net<Listener = TcpListener, Stream = TcpStream> + Env + Input + Print,
    E: Write,
>(rt: &R, alloc: Global, errors: &mut E) -> io::Result<u8>
    ensures { IfOk result IsStatus }
{
    let words = match words_of(alloc, rt, errors) {
        Ok(words) => words,
        Err(status) => return Ok(status),
    };
    let mut writer = BufWriter::with_capacity(alloc, OUTPUT, io::writer(rt))?;
    Ok(run(
        alloc,
        rt,
        words.as_slice(),
        &mut rt.reader(),
        &mut writer,
        errors,
    ))
}
