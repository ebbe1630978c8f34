//! Why a command of the program stops, and its exit status.

ghost use Rattle.std.specs.Prelude.{◌≡◌};
ghost use Rattle.bhs_cli.specs.declared.reporting.faults.Fault.TheVariants as faults;
ghost use Rattle.std.specs.IoError.{error_kind};
ghost use Rattle.bhs_cli.specs.Fault.{of_exploring, of_file, of_kind, of_read, of_replay, of_script, of_twin};
ghost use Rattle.bhs_cli.specs.Fault.{of_writing, replay_status, status};

use crate::reporting::appeal_faults::AppealFault;
use crate::reporting::causes::{cause_of_no_file, cause_of_no_read};
use crate::reporting::names::Shown;
use crate::reporting::statuses::{
    FAILED_STREAM, NO_MEMORY, NO_THREADS, REFUSED_MATCH, REFUSED_TEXT,
};
use bhs_files::FileFault;
use bhs_net::Memory;
use bhs_replay::{ReplayFault, WritingFault};
use bhs_schedules::ExploreFault;
use bhs_script::ScriptFault;
use bhs_stream::{ReadFault, WriteFault};
use bhs_view::TwinFault;
use std::io;
use std::io::{ErrorKind, Write};
use std::rt::Files;
use thiserror::Error;

/// The fault of an order.
#[derive(Clone, Copy, Debug, PartialEq, Eq, Error)]
pub enum Fault {
    /// A file could not be opened, or a read failed.
    #[error("read")]
    Read,
    /// A script or a file is too long, or a file is no UTF-8.
    #[error("text")]
    Text,
    /// More reads were needed than are allowed.
    #[error("turns")]
    Turns,
    /// This line, counted from 1, is no line of a script.
    #[error("line {line}")]
    Line { line: usize },
    /// A file, or what the files say together, is refused.
    #[error("{0}")]
    File(FileFault),
    /// A file is no replay.
    #[error("{0}")]
    Replay(ReplayFault),
    /// The match has no twin at this node.
    #[error("{0}")]
    Twin(TwinFault),
    /// The tournament has no match of this number.
    #[error("no match {game}")]
    NoMatch { game: u16 },
    /// The number of modules is neither one nor the number of agents.
    #[error("{modules} modules, {agents} agents")]
    Modules { modules: usize, agents: u16 },
    /// Not every schedule of a match was tried.
    #[error("{0}")]
    Exploring(ExploreFault),
    /// A replay does not stand an appeal.
    #[error("{0}")]
    Appeal(AppealFault),
    /// No client can connect: the port is in use, or the program lacks the permission.
    #[error("listen")]
    Listen,
    /// Another server writes the replays of this prefix.
    #[error("busy")]
    Busy,
    /// Starting a thread failed.
    #[error("threads")]
    Threads,
    /// The match with this number disagrees with the answers of its sessions.
    #[error("unsettled {game}")]
    Unsettled { game: usize },
    /// A write failed.
    #[error("write")]
    Write,
    /// There was not enough memory.
    #[error("memory")]
    Memory,
}

impl Fault {
    /// The exit status of the fault.
    pub fn status(self) -> u8
        ensures { result ≡ status self }
    {
        match self {
            Fault::Text | Fault::Line { .. } | Fault::File(_) => REFUSED_TEXT,
            Fault::NoMatch { .. } | Fault::Modules { .. } | Fault::Exploring(_) => REFUSED_TEXT,
            Fault::Replay(fault) => replay_status(fault),
            Fault::Appeal(fault) => fault.status(),
            Fault::Twin(_) | Fault::Unsettled { .. } => REFUSED_MATCH,
            Fault::Memory => NO_MEMORY,
            Fault::Threads => NO_THREADS,
            Fault::Read | Fault::Turns | Fault::Listen | Fault::Busy | Fault::Write =>
                FAILED_STREAM,
        }
    }
}

// Returns the exit status for a text whose spelling is wrong, or whose events no match has.
fn replay_status(fault: ReplayFault) -> u8
    ensures { result ≡ replay_status fault }
{
    match fault {
        ReplayFault::Event { .. } | ReplayFault::Differs { .. } => REFUSED_MATCH,
        _ => REFUSED_TEXT,
    }
}

/// Writes a fault as a line `PLACE: FAULT`, and answers its exit status. The place is shown as `Shown` says.
pub fn report<E: Write>(place: &str, fault: Fault, errors: &mut E) -> u8
    ensures { result ≡ status fault }
{
    let place = Shown { name: place };
    let _ = writeln!(errors, "{place}: {fault}");
    fault.status()
}

/// Reports a fault of a file, and behind it why the file was not read or made, if the system says. Answers the exit
/// status.
pub fn report_with_cause<F: Files, E: Write>(
    files: &F,
    name: &str,
    fault: Fault,
    errors: &mut E,
) -> u8
    ensures { result ≡ status fault }
{
    let cause = match fault {
        Fault::Read => cause_of_no_read(files, name),
        Fault::Write => cause_of_no_file(files, name),
        _ => None,
    };
    let status = report(name, fault, errors);
    if let Some(cause) = cause {
        let _ = writeln!(errors, "  {cause}");
    }
    status
}

impl From<Memory> for Fault {
    ghost from_gives = { λ _ fault. fault ≡ faults.Memory };

    fn from(_memory: Memory) -> Fault {
        Fault::Memory
    }
}

/// An error of opening a file, or of reading what the system gives a program.
impl From<io::Error> for Fault {
    ghost from_gives = { λ error fault. fault ≡ of_kind (error_kind error) };

    fn from(error: io::Error) -> Fault {
        match error.kind() {
            ErrorKind::OutOfMemory => Fault::Memory,
            _ => Fault::Read,
        }
    }
}

impl From<WriteFault> for Fault {
    ghost from_gives = { λ _ fault. fault ≡ faults.Write };

    fn from(_fault: WriteFault) -> Fault {
        Fault::Write
    }
}

impl From<ReadFault> for Fault {
    ghost from_gives = { λ read fault. fault ≡ of_read read };

    fn from(read: ReadFault) -> Fault {
        match read {
            ReadFault::Read => Fault::Read,
            ReadFault::Text => Fault::Text,
            ReadFault::Memory => Fault::Memory,
            ReadFault::Turns => Fault::Turns,
        }
    }
}

impl From<FileFault> for Fault {
    ghost from_gives = { λ file fault. fault ≡ of_file file };

    fn from(file: FileFault) -> Fault {
        match file {
            FileFault::Memory => Fault::Memory,
            _ => Fault::File(file),
        }
    }
}

impl From<ScriptFault> for Fault {
    ghost from_gives = { λ script fault. fault ≡ of_script script };

    fn from(script: ScriptFault) -> Fault {
        match script {
            ScriptFault::Line { line } => Fault::Line { line },
            ScriptFault::Memory => Fault::Memory,
        }
    }
}

impl From<ReplayFault> for Fault {
    ghost from_gives = { λ replay fault. fault ≡ of_replay replay };

    fn from(replay: ReplayFault) -> Fault {
        match replay {
            ReplayFault::Read => Fault::Read,
            ReplayFault::Memory => Fault::Memory,
            ReplayFault::Turns => Fault::Turns,
            _ => Fault::Replay(replay),
        }
    }
}

impl From<WritingFault> for Fault {
    ghost from_gives = { λ writing fault. fault ≡ of_writing writing };

    fn from(writing: WritingFault) -> Fault {
        match writing {
            WritingFault::Write => Fault::Write,
            WritingFault::Memory => Fault::Memory,
        }
    }
}

impl From<TwinFault> for Fault {
    ghost from_gives = { λ twin fault. fault ≡ of_twin twin };

    fn from(twin: TwinFault) -> Fault {
        match twin {
            TwinFault::Memory => Fault::Memory,
            _ => Fault::Twin(twin),
        }
    }
}

impl From<ExploreFault> for Fault {
    ghost from_gives = { λ explore fault. fault ≡ of_exploring explore };

    fn from(explore: ExploreFault) -> Fault {
        match explore {
            ExploreFault::Memory => Fault::Memory,
            _ => Fault::Exploring(explore),
        }
    }
}
