//! Replies as a log keeps them: a text is named by the place of its Write.

ghost use Rattle.std.specs.Prelude.{◌≡◌, [], IfOk, option_map, unwrap_or};
ghost use Rattle.bhs_model.specs.Marks.{text_at, read};

use crate::commands::Command;
use crate::events::Event;
use crate::replies::{Reply, Why};
use bhs_net::Memory;
use bhs_text::Text;

/// A reply as a match stores it: the text of a whiteboard is named by the place of the event that wrote
/// it in the log; None stands for the empty text of a whiteboard that no Write has changed.
#[derive(Clone, Copy, Debug, PartialEq, Eq)]
pub enum Mark {
    /// The agent is at a node with this many ports, came by the link with this label at the node (None
    /// where it entered at the home base), and the whiteboard shows the text of this place.
    Here {
        ports: u16,
        came: Option<u16>,
        board: Option<u32>,
    },
    /// The whiteboard shows the new text.
    Written,
    /// The whiteboard showed another text than the expected one, that of this place, and shows it still.
    Changed {
        board: Option<u32>,
    },
    /// The agent has departed; its link carries it.
    Gone,
    /// The accusation stands, right or wrong, and the agent has ended.
    Noted,
    /// The agent has ended.
    Bye,
    /// The match has ended.
    Over,
    /// The command is refused.
    No(Why),
}

/// An event of a log, and what was answered, if anything.
#[derive(Debug, Drop)]
pub struct Kept {
    pub event: Event,
    pub mark: Option<Mark>,
}

// The text that a whiteboard shows whose last change is the Write at this place of the log; None without a place.
fn put_at(log: &[Kept], board: Option<u32>) -> Option<&Text>
    ensures { unwrap_or (option_map (λ text. text.now) result) [] ≡ text_at log.now board }
{
    match log.get(board? as usize) {
        Some(
            Kept {
                event: Event::Tell {
                    command: Command::Write { put, .. },
                    ..
                },
                ..
            },
        ) => Some(put),
        _ => None,
    }
}

/// The text that a whiteboard shows whose last change is the Write at this place of the log; empty where
/// there is none.
pub fn text_at(log: &[Kept], board: Option<u32>) -> &str
    ensures { result.now ≡ text_at log.now board }
{
    match put_at(log, board) {
        Some(text) => text.as_str(),
        None => "",
    }
}

/// The same text, which shares its bytes with the log.
pub fn text_shared(log: &[Kept], board: Option<u32>) -> Result<Text, Memory>
    ensures { IfOk result (λ text. text ≡ text_at log.now board) }
{
    match put_at(log, board) {
        Some(text) => Ok(text.clone()?),
        None => Ok(Text::empty()),
    }
}

/// The reply that a mark stands for, in its log. The text of a whiteboard shares its bytes with the log.
pub fn read(log: &[Kept], mark: &Mark) -> Result<Reply, Memory>
    ensures { IfOk result (λ reply. reply ≡ read log.now mark.now) }
{
    Ok(match mark {
        Mark::Here { ports, came, board } => Reply::Here {
            ports: *ports,
            came: *came,
            board: text_shared(log, *board)?,
        },
        Mark::Written => Reply::Written,
        Mark::Changed { board } => Reply::Changed {
            board: text_shared(log, *board)?,
        },
        Mark::Gone => Reply::Gone,
        Mark::Noted => Reply::Noted,
        Mark::Bye => Reply::Bye,
        Mark::Over => Reply::Over,
        Mark::No(why) => Reply::No(*why),
    })
}
