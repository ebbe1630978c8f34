//! Replies whose texts are lent.

ghost use Rattle.std.specs.Prelude.{◌≡◌, List};
ghost use Rattle.bhs_model.specs.Marks.{board_of, read, text_at};
ghost use Rattle.bhs_model.specs.declared.marks.Kept.{Kept};
ghost use Rattle.bhs_wire.specs.LentReply.{reply_of};

use bhs_model::{Mark, Reply, Why};

/// A reply whose whiteboard is lent.
#[derive(Clone, Copy, Debug)]
pub enum LentReply<'b> {
    /// As `Reply::Here`.
    Here {
        ports: u16,
        came: Option<u16>,
        board: &'b str,
    },
    /// As `Reply::Written`.
    Written,
    /// As `Reply::Changed`.
    Changed {
        board: &'b str,
    },
    /// As `Reply::Gone`.
    Gone,
    /// As `Reply::Noted`.
    Noted,
    /// As `Reply::Bye`.
    Bye,
    /// As `Reply::Over`.
    Over,
    /// As `Reply::No`.
    No(Why),
}

impl<'b> LentReply<'b> {
    /// A reply, lent.
    pub fn of_reply(reply: &'b Reply) -> LentReply<'b>
        ensures { reply_of result ≡ reply.now }
    {
        match reply {
            Reply::Here { ports, came, board } => LentReply::Here {
                ports: *ports,
                came: *came,
                board: board.as_str(),
            },
            Reply::Written => LentReply::Written,
            Reply::Changed { board } => LentReply::Changed {
                board: board.as_str(),
            },
            Reply::Gone => LentReply::Gone,
            Reply::Noted => LentReply::Noted,
            Reply::Bye => LentReply::Bye,
            Reply::Over => LentReply::Over,
            Reply::No(why) => LentReply::No(*why),
        }
    }

    /// Returns the reply for a mark of a log, given the text that its whiteboard shows there.
    pub fn of_mark(mark: Mark, board: &'b str) -> LentReply<'b>
        ensures { (log : List Kept) → board.now ≡ text_at log (board_of mark) → reply_of result ≡ read log mark }
    {
        match mark {
            Mark::Here { ports, came, .. } => LentReply::Here { ports, came, board },
            Mark::Written => LentReply::Written,
            Mark::Changed { .. } => LentReply::Changed { board },
            Mark::Gone => LentReply::Gone,
            Mark::Noted => LentReply::Noted,
            Mark::Bye => LentReply::Bye,
            Mark::Over => LentReply::Over,
            Mark::No(why) => LentReply::No(why),
        }
    }
}
