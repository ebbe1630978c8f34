//! Where each event of a log happened.

ghost use Rattle.std.specs.Prelude.{◌≡◌, ◌<◌, IfSome};
ghost use Rattle.bhs_net.specs.Network.{nodes_of};
ghost use Rattle.bhs_match.specs.Keeping.{said_by, bound_for, site_by};

use bhs_model::{Command, Event};
use bhs_state::Standing;
use bhs_world::World;
use std::marker::Model;

// What stands for no node, since a network has fewer.
const NO_NODE: u16 = 65535;

/// The site of an event: an optional node.
#[derive(Debug, Drop)]
pub struct Site {
    code: u16,
}

impl Model for Site {
    ghost use Rattle.std.specs.Prelude.{ℕ, Option, Some, None, if◌then◌else◌, ◌==◌};

    ghost Value = { Option ℕ };

    ghost view = { λ site. if site.code == 65535 then None else Some site.code };
}

impl Site {
    fn new(node: Option<u16>) -> Site
        requires { IfSome node (λ node. node < 65535) }
        ensures { result ≡ node }
    {
        match node {
            Some(node) => Site { code: node },
            None => Site { code: NO_NODE },
        }
    }

    /// The node.
    pub fn node(&self) -> Option<u16>
        ensures { result ≡ self.now }
    {
        if self.code == NO_NODE {
            None
        } else {
            Some(self.code)
        }
    }
}

/// Computes the site of an event that is kept, before the event is played.
pub(crate) fn site_of(world: &World, event: &Event) -> Site
    ensures site { result ≡ site_by world.now event.now }
    ensures range { IfSome result (λ node. node < nodes_of world.now.net) }
{
    // The proof needs how many nodes a network may have.
    let _nodes = world.net().nodes();
    Site::new(node(world, event))
}

fn node(world: &World, event: &Event) -> Option<u16>
    ensures site { result ≡ site_by world.now event.now }
    ensures range { IfSome result (λ node. node < nodes_of world.now.net) }
{
    match event {
        Event::Tell { agent, command } => said(world, *agent, command),
        Event::Deliver { agent } => bound_for(world, *agent),
        Event::Close => None,
    }
}

// The node at which an agent says a command.
fn said(world: &World, agent: u16, command: &Command) -> Option<u16>
    ensures site { result ≡ said_by world.now agent command.now }
    ensures range { IfSome result (λ node. node < nodes_of world.now.net) }
{
    if agent >= world.setup().agents {
        return None;
    }
    match (world.agent(agent).standing(), command) {
        (_, Command::Enter) => Some(world.setup().home),
        (Standing::Present { node, .. }, _) => Some(node),
        _ => None,
    }
}

// The node that an agent on a link is bound for.
fn bound_for(world: &World, agent: u16) -> Option<u16>
    ensures site { result ≡ bound_for world.now agent }
    ensures range { IfSome result (λ node. node < nodes_of world.now.net) }
{
    if agent >= world.setup().agents {
        return None;
    }
    match world.agent(agent).standing() {
        Standing::Away { node, port } => Some(world.net().far(node, port).0),
        _ => None,
    }
}
