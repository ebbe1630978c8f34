//! Comparisons of a pass with the log.

ghost use Rattle.std.specs.Prelude.{◌≡◌, ◌↔◌, IsTrue, Some};
ghost use Rattle.bhs_model.specs.Marks.{read, read_if};
ghost use Rattle.bhs_shared_match.specs.Comparing.{entry_of, entry_in};

use crate::kept_command::KeptCommand;
use crate::model::Receipt;
use bhs_model::{Command, Kept, Mark, Reply, text_at};

/// Whether a command of the log is what a receipt and a kept command say.
pub(crate) fn is_entry(
    log: &[Kept],
    place: usize,
    command: &Command,
    mark: &Option<Mark>,
    receipt: &Receipt,
    kept: &KeptCommand,
) -> bool
    ensures { IsTrue result ↔ (entry_of log.now place command.now mark.now ≡ entry_in receipt.now kept.now) }
{
    receipt.place as usize == place
        && is_reply(log, mark, &receipt.reply)
        && kept.is_kept_of(command, &receipt.reply)
}

// Returns whether a mark, if any, stands for this reply.
fn is_reply(log: &[Kept], mark: &Option<Mark>, reply: &Reply) -> bool
    ensures { IsTrue result ↔ (read_if log.now mark.now ≡ Some reply.now) }
{
    match mark {
        Some(mark) => reads_as(log, mark, reply),
        None => false,
    }
}

/// Whether a mark is read as this reply.
pub(crate) fn reads_as(log: &[Kept], mark: &Mark, reply: &Reply) -> bool
    ensures { IsTrue result ↔ (read log.now mark.now ≡ reply.now) }
{
    match (mark, reply) {
        (
            Mark::Here { ports, came, board },
            Reply::Here {
                ports: p,
                came: c,
                board: text,
            },
        ) => { *ports == *p && *came == *c && text_at(log, *board) == text.as_str() }
        (Mark::Changed { board }, Reply::Changed { board: text }) => text_at(log, *board)
            == text.as_str(),
        (Mark::No(why), Reply::No(other)) => *why == *other,
        (Mark::Written, Reply::Written)
        | (Mark::Gone, Reply::Gone)
        | (Mark::Noted, Reply::Noted)
        | (Mark::Bye, Reply::Bye)
        | (Mark::Over, Reply::Over) => true,
        _ => false,
    }
}
