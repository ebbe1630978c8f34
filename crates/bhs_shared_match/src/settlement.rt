//! The settlement of a match that no thread shares any more.

ghost use Rattle.std.specs.Prelude.{◌≡◌, IfOk, IfErr, MatchOption, length};
ghost use Rattle.bhs_shared_match.specs.Disputes.{account_of, AreInAccord, IsDispute, IsSettled, IsRefused, HasRefused};

use crate::differences::{first_difference, first_stray, missing};
use crate::locked_match::LockedMatch;
use crate::networks::is_of_world;
use crate::parts::Parts;
use crate::pass::Pass;
use crate::shared_matches::SharedMatch;
use bhs_deliveries::Held;
use bhs_match::Sealed;

/// Reasons why a match does not settle.
#[derive(Clone, Copy, Debug, PartialEq, Eq)]
pub enum Dispute {
    /// The pass of this agent was claimed and is missing.
    Missing { agent: u16 },
    /// The match has another network or setup than the shared match was given.
    World,
    /// The agent's receipts and stored commands differ from its heard commands in the log. The index is the first
    /// difference, possibly the shorter list's end. Without a pass, an agent must have no heard command.
    Differs { agent: u16, receipt: usize },
    /// The arrival at this index of a pass differs from the agent's arrival in the log.
    Arrival { agent: u16, index: usize },
    /// The match has not ended.
    NotClosed,
}

/// An unsettled match: the reason, and all parts for return.
#[derive(Debug, Drop)]
pub struct Unsettled {
    pub why: Dispute,
    pub inner: LockedMatch,
    /// The unclaimed passes by agent; None for a claimed one.
    pub left: Vec<Option<Pass>>,
    pub passes: Vec<Pass>,
}

/// A match that settles.
#[derive(Debug, Drop)]
pub struct Settlement {
    pub sealed: Sealed,
    /// The turn of each event of its log.
    pub turns: Vec<u32>,
    /// The links over which no turn let an agent arrive.
    pub held: Held,
}

/// Settles a shared match that no other thread uses any more: returns it read-only if the passes agree with it, that
/// is, each claimed pass is present and has its agent's heard commands and first arrivals, with places and replies.
/// Otherwise returns the first dispute in the order of `Dispute`, for the least agent and its least index, together
/// with the parts. Allocates no memory. Accepts any passes.
pub fn settle(shared_match: SharedMatch, passes: Vec<Pass>) -> Result<Settlement, Unsettled>
    ensures settled { IfOk result (λ settlement. AreInAccord shared_match settlement.sealed passes.items) }
    ensures turns { IfOk result (λ settlement. length settlement.turns.items ≡ length settlement.sealed.log) }
    ensures held { IfOk result (λ settlement. settlement.held ≡ shared_match.held) }
    ensures refused { IfErr result (λ unsettled. HasRefused shared_match passes unsettled) }
{
    shared_match.into_parts().settle(passes)
}

impl Parts {
    /// The match for reading alone, if the passes agree with it and with the parts; otherwise the first dispute, and
    /// the parts. Takes no memory.
    pub fn settle(self, passes: Vec<Pass>) -> Result<Settlement, Unsettled>
        ensures settled { IfOk result (λ settlement. (settlement.sealed ≡ self.inner.play)
            × IsSettled (account_of self passes.items)) }
        ensures turns { IfOk result (λ settlement. settlement.turns.items ≡ self.inner.turns) }
        ensures held { IfOk result (λ settlement. settlement.held ≡ self.held) }
        ensures count { IfOk result (λ settlement. length settlement.turns.items ≡ length settlement.sealed.log) }
        ensures refused { IfErr result (λ unsettled. IsRefused self passes unsettled) }
    {
        let dispute = self.first_dispute(&passes);
        let Parts {
            game: _,
            inner,
            left,
            net: _,
            setup: _,
            held,
            schedule: _,
        } = self;
        match dispute {
            None => {
                let (sealed, turns) = inner.into_sealed();
                Ok(Settlement {
                    sealed,
                    turns,
                    held,
                })
            }
            Some(why) => Err(Unsettled {
                why,
                inner,
                left,
                passes,
            }),
        }
    }

    // Returns the first dispute between the parts and the passes, if any.
    fn first_dispute(&self, passes: &[Pass]) -> Option<Dispute>
        ensures { MatchOption result (IsSettled (account_of self.now passes.now))
            (IsDispute (account_of self.now passes.now)) }
    {
        let play = self.inner.state();
        if let Some(agent) = missing(self.setup.agents, &self.left, passes) {
            return Some(Dispute::Missing { agent });
        }
        if !is_of_world(play, &self.net, &self.setup) {
            return Some(Dispute::World);
        }
        if let Some((agent, receipt)) = first_difference(play, passes) {
            return Some(Dispute::Differs { agent, receipt });
        }
        if let Some((agent, index)) = first_stray(play, passes) {
            return Some(Dispute::Arrival { agent, index });
        }
        if !play.closed() {
            return Some(Dispute::NotClosed);
        }
        None
    }
}
