//! What a pass keeps of a command.

ghost use Rattle.std.specs.Prelude.{◌≡◌, ◌↔◌, IsTrue, IfOk};
ghost use Rattle.bhs_model.specs.declared.commands.Command.TheVariants.{Write};
ghost use Rattle.bhs_world.specs.Tables.{is_of_board};
ghost use Rattle.bhs_shared_match.specs.Passes.{kind_of, kept_command};
ghost use Rattle.bhs_shared_match.specs.KeptCommand.{write_of};

use bhs_model::{Command, Reply, Text};
use bhs_net::Memory;
use std::alloc::Global;
use std::marker::Model;

/// A command as a pass keeps it. The texts of a Write lie apart, so that a pass takes less memory for each command.
/// Contracts see the command.
#[derive(Debug, Drop)]
pub(crate) struct KeptCommand {
    form: Form,
}

/// The texts of a Write.
#[derive(Debug, Drop)]
pub(crate) struct WriteTexts {
    expect: Text,
    put: Text,
}

/// The stored form of a command.
#[derive(Debug, Drop)]
pub(crate) enum Form {
    Enter,
    Look,
    /// None stands for two empty texts.
    Write(Option<Box<WriteTexts>>),
    Depart(u16),
    Accuse(u16),
    Leave,
    Bad,
}

impl Model for KeptCommand {
    ghost use Rattle.bhs_model.specs.declared.commands.Command.{Command};
    ghost use Rattle.bhs_shared_match.specs.KeptCommand.{command_of};

    ghost Value = { Command };

    ghost view = { λ kept. command_of kept.form };
}

impl KeptCommand {
    /// A copy of the command.
    pub(crate) fn copy_of(alloc: Global, command: &Command) -> Result<KeptCommand, Memory>
        ensures { IfOk result (λ kept. kept ≡ command.now) }
    {
        let Command::Write { expect, put } = command else {
            return Ok(KeptCommand::kind_of(command));
        };
        let texts = WriteTexts {
            expect: expect.clone()?,
            put: put.clone()?,
        };
        Ok(KeptCommand {
            form: Form::Write(Some(Box::new(alloc, texts)?)),
        })
    }

    /// The command without its texts. Takes no memory.
    #[inline(always)]
    pub(crate) fn kind_of(command: &Command) -> KeptCommand
        ensures { result ≡ kind_of command.now }
    {
        let form = match command {
            Command::Enter => Form::Enter,
            Command::Look => Form::Look,
            Command::Write { .. } => Form::Write(None),
            Command::Depart { port } => Form::Depart(*port),
            Command::Accuse { port } => Form::Accuse(*port),
            Command::Leave => Form::Leave,
            Command::Bad => Form::Bad,
        };
        KeptCommand { form }
    }

    /// Returns whether this is the stored form of a command with this reply.
    pub(crate) fn is_kept_of(&self, command: &Command, reply: &Reply) -> bool
        ensures { IsTrue result ↔ (kept_command command.now reply.now ≡ self.now) }
    {
        match (&self.form, command) {
            (Form::Write(texts), Command::Write { expect, put }) => {
                if is_of_board(reply) {
                    are_texts(texts, expect.as_str(), put.as_str())
                } else {
                    are_texts(texts, "", "")
                }
            }
            (Form::Depart(port), Command::Depart { port: other })
            | (Form::Accuse(port), Command::Accuse { port: other }) => *port == *other,
            (Form::Enter, Command::Enter)
            | (Form::Look, Command::Look)
            | (Form::Leave, Command::Leave)
            | (Form::Bad, Command::Bad) => true,
            _ => false,
        }
    }
}

// Returns whether a stored Write has these texts.
fn are_texts(texts: &Option<Box<WriteTexts>>, expect: &str, put: &str) -> bool
    ensures { IsTrue result ↔ (Write expect.now put.now ≡ write_of texts.now) }
{
    match texts {
        Some(texts) => texts.expect.as_str() == expect && texts.put.as_str() == put,
        None => expect.is_empty() && put.is_empty(),
    }
}

// Whether a reply says what a whiteboard shows, or that it was written.
fn is_of_board(reply: &Reply) -> bool
    ensures { result ≡ is_of_board reply.now }
{
    matches!(
        reply,
        Reply::Here { .. } | Reply::Written | Reply::Changed { .. }
    )
}
