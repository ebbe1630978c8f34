//! The agents on links, from which deliveries are drawn.

ghost use Rattle.std.specs.Prelude.{◌≡◌, ◌<◌, ◌==◌, not, None, IsSome, filter, vec_capacity, vec_len};
ghost use Rattle.bhs_match.specs.Keeping.{link_by, link_at, settled, settled_by};

use bhs_model::Event;
use bhs_world::World;

/// An agent on a link, destroyed or not, with its departure node and port.
#[derive(Clone, Copy, Debug, PartialEq, Eq)]
pub struct Bound {
    pub agent: u16,
    pub node: u16,
    pub port: u16,
}

/// The departure node and port of the link that the agent of an event is on.
pub(crate) fn link_by(world: &World, event: &Event) -> Option<(u16, u16)>
    ensures { result ≡ link_by world.now event.now }
{
    match event {
        Event::Tell { agent, .. } | Event::Deliver { agent } => link(world, *agent),
        Event::Close => None,
    }
}

/// Returns the departure node and port of an agent's link, or None for another position or a number without an agent.
pub(crate) fn link(world: &World, agent: u16) -> Option<(u16, u16)>
    ensures { result ≡ link_at world.now agent }
{
    if agent >= world.setup().agents {
        return None;
    }
    world.agent(agent).bound()
}

/// Updates the pool after an event, given the links of the event's agent before and after.
pub(crate) fn settle(
    pool: &mut Vec<Bound>,
    event: &Event,
    was: Option<(u16, u16)>,
    now: Option<(u16, u16)>,
)
    requires room { was ≡ None → IsSome now → vec_len pool.old < vec_capacity pool.old }
    ensures items { pool.new.items ≡ settled_by event.now was now pool.old.items }
    ensures capacity { vec_capacity pool.new ≡ vec_capacity pool.old }
{
    match event {
        Event::Tell { agent, .. } => settle_agent(pool, *agent, was, now),
        // The destroyed stay on their links, and so in the pool.
        Event::Deliver { agent } => settle_agent(pool, *agent, was, now),
        Event::Close => {}
    }
}

fn settle_agent(pool: &mut Vec<Bound>, agent: u16, was: Option<(u16, u16)>, now: Option<(u16, u16)>)
    requires room { was ≡ None → IsSome now → vec_len pool.old < vec_capacity pool.old }
    ensures items { pool.new.items ≡ settled agent was now pool.old.items }
    ensures capacity { vec_capacity pool.new ≡ vec_capacity pool.old }
{
    match (was, now) {
        (None, Some((node, port))) => pool.push_reserved(Bound { agent, node, port }),
        (Some(_), None) => leave(pool, agent),
        _ => {}
    }
}

// Takes an agent out of the pool.
fn leave(pool: &mut Vec<Bound>, agent: u16)
    ensures items { pool.new.items ≡ filter (λ bound. not (bound.agent == agent)) pool.old.items }
    ensures capacity { vec_capacity pool.new ≡ vec_capacity pool.old }
{
    pool.retain(|bound| bound.agent != agent);
}
