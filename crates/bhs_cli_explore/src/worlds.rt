//! The world of a match whose schedules are explored.

ghost use Rattle.std.specs.Prelude.{◌≡◌, ◌<◌, IfOk, IfSome};
ghost use Rattle.bhs_net.specs.Network.{nodes_of};
ghost use Rattle.bhs_cli_explore.specs.Holes.{match_with, setup_with};

use bhs_cli::Fault;
use bhs_model::{DarkLinks, Holes, Setup};
use bhs_net::Memory;
use bhs_setups::Ready;
use bhs_world::World;
use std::alloc::Global;

/// The world of a match before anything happens, or of the match with this node as its only black hole.
pub(crate) fn world_of(alloc: Global, ready: &Ready, hole: Option<u16>) -> Result<World, Fault>
    requires { IfSome hole (λ hole. hole < nodes_of ready.now.game.net) }
    ensures { IfOk result (λ world. (world.net ≡ ready.now.game.net)
        × (world.setup ≡ (match_with ready.now hole).game.setup)) }
{
    let net = ready.game.net().try_clone(alloc)?;
    let setup = setup_with(alloc, ready.game.setup(), hole)?;
    // The setup differs from a valid one by its black hole alone, so the only fault is memory.
    match World::new(alloc, net, setup) {
        Ok(world) => Ok(world),
        Err(_) => Err(Fault::Memory),
    }
}

// The setup, or the setup with this node as its only black hole, and no dark link.
fn setup_with(alloc: Global, setup: &Setup, hole: Option<u16>) -> Result<Setup, Memory>
    ensures { IfOk result (λ it. it ≡ setup_with setup.now hole) }
{
    let Some(hole) = hole else {
        return setup.try_clone();
    };
    let mut holes = Vec::new(alloc);
    holes.push(hole)?;
    Ok(Setup {
        home: setup.home,
        holes: Holes::from(holes),
        dark: DarkLinks::from(Vec::new(alloc)),
        agents: setup.agents,
        quota: setup.quota,
        board: setup.board,
    })
}
