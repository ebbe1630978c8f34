//! The state of an agent: its position, and the used part of its quota.

ghost use Rattle.std.specs.Prelude.{◌≡◌, ◌+◌, ◌<◌, true, IsTrue, Some};
ghost use Rattle.bhs_model.specs.Runs.{Before, At, Bound, After, is_bound};
ghost use Rattle.bhs_state.specs.Agents.{newcomer, position_of, node_of, label_of, link_of, is_inside};

use crate::standings::Standing;
use bhs_model::MAX_QUOTA;
use std::marker::Model;

/// An agent. Contracts see its position, how many commands it has used, and whether it is lost.
#[derive(Debug, Drop)]
pub struct Agent {
    standing: Standing,
    used: u16,
    lost: bool,
}

impl Model for Agent {
    ghost use Rattle.bhs_state.specs.Agents.{AgentState, position_of};

    ghost Value = { AgentState };

    ghost view = { λ agent. record { position = position_of agent.standing; used = agent.used; lost = agent.lost } };
}

impl Agent {
    /// Creates an agent that has not entered.
    pub fn new() -> Agent
        ensures { result ≡ newcomer }
    {
        Agent {
            standing: Standing::Outside,
            used: 0,
            lost: false,
        }
    }

    /// An agent that stands so, has used nothing, and is not known to be lost.
    pub fn standing_so(standing: Standing) -> Agent
        ensures { result ≡ record newcomer { position = position_of standing } }
    {
        Agent {
            standing,
            used: 0,
            lost: false,
        }
    }

    /// Returns what the agent is doing, and where.
    pub fn standing(&self) -> Standing
        ensures { position_of result ≡ self.now.position }
    {
        self.standing
    }

    /// How many commands it has used of its quota.
    pub fn used(&self) -> u16
        ensures { result ≡ self.now.used }
    {
        self.used
    }

    /// The node where it is.
    pub fn node(&self) -> Option<u16>
        ensures { result ≡ node_of self.now.position }
    {
        match self.standing {
            Standing::Present { node, .. } => Some(node),
            _ => None,
        }
    }

    /// Returns the label by which the agent arrived at its node, or None if it entered there.
    pub fn came(&self) -> Option<u16>
        ensures { result ≡ label_of self.now.position }
    {
        match self.standing {
            Standing::Present { came, .. } => came,
            _ => None,
        }
    }

    /// Returns the node and the port of its departure while the agent is on a link.
    pub fn bound(&self) -> Option<(u16, u16)>
        ensures { result ≡ link_of self.now.position }
    {
        match self.standing {
            Standing::Away { node, port } => Some((node, port)),
            _ => None,
        }
    }

    /// Whether a black hole or a dark link has destroyed it. Nobody is told: it stays on its link.
    pub fn lost(&self) -> bool
        ensures { result ≡ self.now.lost }
    {
        self.lost
    }

    /// It enters at the home base.
    pub fn enter(&mut self, home: u16)
        requires { self.old.position ≡ Before }
        ensures { self.new ≡ record self.old { position = At home None } }
    {
        self.standing = Standing::Present {
            node: home,
            came: None,
        };
    }

    /// It uses one command of its quota.
    pub fn count(&mut self)
        requires { self.old.used < MAX_QUOTA }
        ensures { self.new ≡ record self.old { used = self.old.used + 1 } }
    {
        self.used += 1;
    }

    /// Moves the agent from its node onto the link at this port.
    pub fn depart(&mut self, node: u16, port: u16)
        requires { node_of self.old.position ≡ Some node }
        ensures { self.new ≡ record self.old { position = Bound node port } }
    {
        self.standing = Standing::Away { node, port };
    }

    /// Moves the agent to a node, which it enters by the link with this label.
    pub fn arrive(&mut self, node: u16, label: u16)
        requires { IsTrue (is_bound self.old.position) }
        ensures { self.new ≡ record self.old { position = At node (Some label) } }
    {
        self.standing = Standing::Present {
            node,
            came: Some(label),
        };
    }

    /// It is destroyed on its link, which changes nothing else.
    pub fn lose(&mut self)
        requires { IsTrue (is_bound self.old.position) }
        ensures { self.new ≡ record self.old { lost = true } }
    {
        self.lost = true;
    }

    /// Ends the agent, at a node or on a link.
    pub fn end(&mut self)
        requires { IsTrue (is_inside self.old.position) }
        ensures { self.new ≡ record self.old { position = After } }
    {
        self.standing = Standing::Ended;
    }
}
