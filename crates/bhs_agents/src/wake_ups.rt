//! Counting wake-ups in a row.

ghost use Rattle.std.specs.Prelude.{◌≡◌, ◌+◌, ◌<◌, ◌^◌, IfOk};
ghost use Rattle.bhs_agents.specs.Searchers.{observation_of};
ghost use Rattle.bhs_agents.specs.WakeUps.{after_item, after_text, counted, no_wake_ups};

use crate::searchers::AgentNews;
use bhs_model::Reply;
use std::alloc::{AllocError, Global};

/// How often an agent has woken in a row, as far as its replies tell.
#[derive(Drop)]
pub struct WakeUps {
    /// How many spurious wake-ups in a row the agent may have.
    pub limit: u32,
    /// The text of the whiteboard in the last reply, if that reply showed one.
    pub shown: Option<String>,
    /// The wake-ups since the last reply.
    pub since_reply: u64,
    /// At least the wake-ups since the whiteboard in front of the agent was another one or showed another text.
    pub in_a_row: u64,
}

impl WakeUps {
    /// The count before anything has happened.
    pub fn new(limit: u32) -> WakeUps
        ensures none { counted result ≡ no_wake_ups }
        ensures limit { result.limit ≡ limit }
        ensures small { limit < 2 ^ 32 }
    {
        WakeUps {
            limit,
            shown: None,
            since_reply: 0,
            in_a_row: 0,
        }
    }

    /// The count once this has happened.
    pub fn after(self, alloc: Global, news: &AgentNews) -> Result<WakeUps, AllocError>
        requires since { self.since_reply + 1 < 2 ^ 64 }
        requires row { self.in_a_row + 1 < 2 ^ 64 }
        ensures count { IfOk result (λ next. counted next ≡ after_item (counted self) (observation_of news.now)) }
        ensures limit { IfOk result (λ next. next.limit ≡ self.limit) }
    {
        match news {
            AgentNews::Woke => Ok(WakeUps {
                limit: self.limit,
                shown: self.shown,
                since_reply: self.since_reply + 1,
                in_a_row: self.in_a_row + 1,
            }),
            AgentNews::Heard(
                Reply::Here {
                    ports: _,
                    came: _,
                    board,
                },
            ) => self.after_text(alloc, board.as_str()),
            AgentNews::Heard(Reply::Changed { board }) => self.after_text(alloc, board.as_str()),
            AgentNews::Heard(Reply::Gone) => Ok(WakeUps::new(self.limit)),
            AgentNews::Heard(_) => Ok(WakeUps {
                limit: self.limit,
                shown: None,
                since_reply: 0,
                in_a_row: self.in_a_row,
            }),
        }
    }

    // The count after a reply that shows this text.
    fn after_text(self, alloc: Global, text: &str) -> Result<WakeUps, AllocError>
        ensures count { IfOk result (λ next. counted next ≡ after_text (counted self) text.now) }
        ensures limit { IfOk result (λ next. next.limit ≡ self.limit) }
    {
        let is_news = match &self.shown {
            Some(before) => before.as_str() != text,
            None => false,
        };
        Ok(WakeUps {
            limit: self.limit,
            shown: Some(String::from_str(alloc, text)?),
            since_reply: 0,
            in_a_row: if is_news {
                self.since_reply
            } else {
                self.in_a_row
            },
        })
    }
}
