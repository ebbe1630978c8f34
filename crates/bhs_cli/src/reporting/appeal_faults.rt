//! Why a replay does not stand an appeal.

ghost use Rattle.std.specs.Prelude.{◌≡◌};
ghost use Rattle.bhs_cli.specs.Fault.{appeal_status};

use crate::reporting::statuses::{REFUSED_MATCH, REFUSED_TEXT};
use thiserror::Error;

/// Reasons why the turns of a replay's events cannot be judged.
#[derive(Clone, Copy, Debug, PartialEq, Eq, Error)]
pub enum AppealFault {
    /// The tournament has the adaptive schedule, under which turns say nothing.
    #[error("adaptive")]
    Adaptive,
    /// The replay is not of the match of this number: the network or the setup is another.
    #[error("not match {game}")]
    Other { game: u16 },
    /// There are not as many turns as events.
    #[error("{turns} turns, {events} events")]
    Count { turns: usize, events: usize },
    /// The event at this place has a turn out of order: an earlier turn than its predecessor's, or a turn that an
    /// arrival ended.
    #[error("turn of place {place}")]
    Early { place: usize },
    /// Before the event at this place this turn delivers this agent, and the replay leaves that out.
    #[error("agent {agent} arrives in turn {turn}, before place {place}")]
    LeftOut { place: usize, agent: u16, turn: u64 },
    /// The delivery at this place went over a held link.
    #[error("held link at place {place}")]
    Held { place: usize },
    /// The delivery at this place was not made at its turn.
    #[error("late at place {place}")]
    Late { place: usize },
}

impl AppealFault {
    /// The exit status of the fault.
    pub fn status(self) -> u8
        ensures { result ≡ appeal_status self }
    {
        match self {
            AppealFault::Adaptive => REFUSED_TEXT,
            _ => REFUSED_MATCH,
        }
    }
}
