//! How a session ends.

ghost use Rattle.std.specs.Prelude.{◌≡◌};
ghost use Rattle.bhs_wire.specs.LentReply.{reply_of};
ghost use Rattle.bhs_session.specs.Phase.{ended_by, phase_of, stopped, between};

use bhs_wire::LentReply;

/// How a session ended.
#[derive(Clone, Copy, Debug, PartialEq, Eq)]
pub enum Ended {
    /// Its agent left.
    Bye = 1,
    /// Its agent made an accusation.
    Noted = 2,
    /// The match had ended.
    Over = 3,
    /// It was not let in.
    Denied = 4,
    /// The client's bytes ended.
    InputEnded = 5,
    /// A read failed.
    ReadFault = 6,
    /// A write failed, or took no byte.
    WriteFault = 7,
    /// Memory ran out.
    Memory = 8,
    /// One more read than the turns allow was needed.
    Turns = 9,
}

// A session takes no more lines.
#[derive(Clone, Copy)]
pub(crate) enum Stop {
    // All is done.
    Finished(Ended),
    // Its agent is still to leave.
    Leaves(Ended),
}

impl Stop {
    // A session stops that takes lines, and has an agent where it has entered.
    pub(crate) fn between_lines(has_entered: bool, cause: Ended) -> Stop
        ensures { phase_of result ≡ stopped (between has_entered) cause }
    {
        if has_entered {
            Stop::Leaves(cause)
        } else {
            Stop::Finished(cause)
        }
    }
}

/// Returns how a reply ends its session, or None if the session goes on.
pub fn ending_of(reply: LentReply<'_>) -> Option<Ended>
    ensures { result ≡ ended_by (reply_of reply.entry) }
{
    match reply {
        LentReply::Bye => Some(Ended::Bye),
        LentReply::Noted => Some(Ended::Noted),
        LentReply::Over => Some(Ended::Over),
        _ => None,
    }
}
