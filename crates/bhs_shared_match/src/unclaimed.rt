//! The passes that nobody has claimed yet.

ghost use Rattle.std.specs.Prelude.{◌≡◌, IfSome, IsTrue};
ghost use Rattle.bhs_shared_match.specs.Unclaimed.{IsFresh};

use crate::pass::Pass;
use bhs_net::Memory;
use std::alloc::Global;
use std::marker::Model;

/// The unclaimed passes of a match, by agent. An unclaimed pass has no receipts.
#[derive(Drop)]
pub(crate) struct Unclaimed {
    left: Vec<Option<Pass>>,
}

impl Model for Unclaimed {
    ghost use Rattle.std.specs.Prelude.{List, Option};
    ghost use Rattle.bhs_shared_match.specs.Passes.{Passed};
    ghost use Rattle.bhs_shared_match.specs.Unclaimed.{AreFresh};

    ghost Value = { List (Option Passed) };

    ghost view = { λ unclaimed. unclaimed.left.items };

    ghost invariant = { λ unclaimed. AreFresh unclaimed.left.items };
}

impl Unclaimed {
    /// A pass for each agent.
    pub(crate) fn new(
        alloc: Global,
        game: u32,
        quota: u16,
        agents: u16,
    ) -> Result<Unclaimed, Memory> {
        let mut left = Vec::with_capacity(alloc, usize::from(agents))?;
        for agent in 0..agents {
            left.push(Some(Pass::new(alloc, game, quota, agent)?))?;
        }
        Ok(Unclaimed { left })
    }

    /// Takes the pass of an agent of a match, if it is present.
    pub(crate) fn take(&mut self, game: u32, quota: u16, agent: u16) -> Option<Pass>
        ensures fresh { IfSome result (IsFresh agent) }
        ensures game { IfSome result (λ pass. pass.game ≡ game) }
        ensures quota { IfSome result (λ pass. pass.quota ≡ quota) }
    {
        let left = self.left.get_mut(usize::from(agent))?;
        if is_of_match(left, game, quota) {
            left.take()
        } else {
            None
        }
    }

    /// The passes that are left, by agent.
    pub(crate) fn into_left(self) -> Vec<Option<Pass>> {
        let Unclaimed { left } = self;
        left
    }
}

// Returns whether the pass belongs to the match with this number and this quota.
fn is_of_match(pass: &Option<Pass>, game: u32, quota: u16) -> bool
    ensures game { IsTrue result → IfSome pass.now (λ pass. pass.game ≡ game) }
    ensures quota { IsTrue result → IfSome pass.now (λ pass. pass.quota ≡ quota) }
{
    matches!(pass, Some(pass) if pass.game() == game && pass.quota() == quota)
}
