//! An agent that follows its strategy, and what it has observed.

ghost use Rattle.std.specs.Prelude.{◌≡◌, ◌+◌, ◌<◌, ◌^◌, ◌≤◌, [], ℕ, IfOk, OnOk, Some};
ghost use Rattle.bhs_schedules.specs.Strategies.{History, Strategy, Woke};
ghost use Rattle.bhs_agents.specs.Searchers.{observation_of};
ghost use Rattle.bhs_attest.specs.Attested.{observed, wake_ups_of};
ghost use Rattle.bhs_attest.specs.Followers.{IsFollower};

use bhs_agents::{AgentNews, Searcher, SearcherFault, WakeUps};
use bhs_schedules::Step;
use std::alloc::Global;

/// An agent that follows its strategy: its next step, and how often it has woken.
#[derive(Drop)]
pub(crate) struct Follower<S: Searcher + Drop> {
    pub(crate) searcher: S,
    pub(crate) step: Step,
    pub(crate) wake_ups: WakeUps,
    /// The total number of wake-ups.
    pub(crate) woken: u64,
    /// The most wake-ups in a row.
    pub(crate) longest: u64,
}

impl<S: Searcher + Drop> Follower<S> {
    /// An agent to which nothing has happened.
    pub(crate) fn new(mut searcher: S, spurious_wakeups: u32) -> Result<Follower<S>, SearcherFault>
        ensures is { IfOk result (λ follower.
            IsFollower S.strategy S.has_met (S.strategy searcher) spurious_wakeups [] follower) }
        ensures small { OnOk result (spurious_wakeups < 2 ^ 32) }
    {
        let step = searcher.begin()?;
        Ok(Follower {
            searcher,
            step,
            wake_ups: WakeUps::new(spurious_wakeups),
            woken: 0,
            longest: 0,
        })
    }

    /// The agent once it has observed this, if anything.
    pub(crate) fn observe(
        self,
        alloc: Global,
        news: Option<AgentNews>,
    ) -> Result<Follower<S>, SearcherFault>
        requires since { self.wake_ups.since_reply + 1 < 2 ^ 64 }
        requires row { self.wake_ups.in_a_row + 1 < 2 ^ 64 }
        requires woken { self.woken + 1 < 2 ^ 64 }
        ensures { IfOk result (λ next. (own : Strategy) (limit : ℕ) (history : History)
            → IsFollower S.strategy S.has_met own limit history self
            → ((one : AgentNews) → news ≡ Some one → observation_of one ≡ Woke → self.wake_ups.in_a_row ≤ limit)
            → IsFollower S.strategy S.has_met own limit (observed news history) next) }
    {
        let Some(news) = news else {
            return Ok(self);
        };
        let Follower {
            mut searcher,
            step: _,
            wake_ups,
            woken,
            longest,
        } = self;
        let wake_ups = wake_ups.after(alloc, &news)?;
        let step = searcher.next(&news)?;
        let longest = longest.max(wake_ups.in_a_row);
        let woken = woken + wake_ups_of(&news);
        Ok(Follower {
            searcher,
            step,
            wake_ups,
            woken,
            longest,
        })
    }
}

// How often an observation wakes its agent: once or never.
fn wake_ups_of(news: &AgentNews) -> u64
    ensures { result ≡ wake_ups_of (observation_of news.now) }
{
    match news {
        AgentNews::Woke => 1,
        AgentNews::Heard(_) => 0,
    }
}
