//! What a walk back through a log still looks for.

ghost use Rattle.std.specs.Prelude.{◌≡◌, ◌<◌, IfOk, IfSome, length};
ghost use Rattle.bhs_view.specs.Entries.{closes};
ghost use Rattle.bhs_view.specs.Walks.{footprint_at, who_of, seen_by, written_by, marked, marks_with, is_needed};
ghost use Rattle.bhs_view.specs.Walks.{needed_after, nothing_needed, IsInRange};

use bhs_model::{Command, Event, Kept, Mark};
use bhs_net::Memory;
use std::alloc::Global;
use std::marker::Model;

/// What the chosen places of a log need of the earlier ones: a mark per agent and per node.
#[derive(Drop)]
pub(crate) struct Needed {
    agents: Vec<bool>,
    nodes: Vec<bool>,
    any: bool,
}

impl Model for Needed {
    ghost use Rattle.bhs_view.specs.Walks.{Needed as NeededData};

    ghost Value = { NeededData };

    ghost view = { λ needed. record { agents = needed.agents.items; nodes = needed.nodes.items; any = needed.any } };
}

impl Needed {
    /// Nothing is needed yet.
    pub fn new(alloc: Global, agents: u16, nodes: u16) -> Result<Needed, Memory>
        ensures { IfOk result (λ needed. needed ≡ nothing_needed agents nodes) }
    {
        Ok(Needed {
            agents: vec![in alloc; false; usize::from(agents)]?,
            nodes: vec![in alloc; false; usize::from(nodes)]?,
            any: false,
        })
    }

    /// Needs all places of an agent.
    pub fn add_agent(&mut self, agent: u16)
        requires { agent < length self.old.agents }
        ensures { self.new ≡ record self.old { agents = marks_with self.old.agents (Some agent) } }
    {
        self.agents[usize::from(agent)] = true;
    }

    /// Whether a place with this site is needed.
    pub fn has(&self, kept: &Kept, site: Option<u16>) -> bool
        requires { IsInRange (length self.now.agents) (length self.now.nodes) (footprint_at kept.now site) }
        ensures { result ≡ is_needed self.now (footprint_at kept.now site) }
    {
        let seen = seen(&kept.event, kept.mark, site);
        closes(&kept.event) && self.any
            || is_marked(&self.agents, who(&kept.event))
            || is_marked(&self.nodes, written(&kept.event, seen))
    }

    /// Needs what a place with this site needs.
    pub fn add(&mut self, kept: &Kept, site: Option<u16>)
        requires { IsInRange (length self.old.agents) (length self.old.nodes) (footprint_at kept.now site) }
        ensures { self.new ≡ needed_after self.old (footprint_at kept.now site) }
    {
        mark(&mut self.agents, who(&kept.event));
        mark(&mut self.nodes, seen(&kept.event, kept.mark, site));
        self.any = true;
    }
}

fn is_marked(marks: &[bool], place: Option<u16>) -> bool
    ensures { result ≡ marked marks.now place }
{
    match place {
        Some(place) => matches!(marks.get(usize::from(place)), Some(true)),
        None => false,
    }
}

fn mark(marks: &mut [bool], place: Option<u16>)
    requires { IfSome place (λ place. place < length marks.old) }
    ensures { marks.new ≡ marks_with marks.old place }
{
    if let Some(place) = place {
        marks[usize::from(place)] = true;
    }
}

// Whose event this is.
fn who(event: &Event) -> Option<u16>
    ensures { result ≡ who_of event.now }
{
    match event {
        Event::Tell { agent, .. } | Event::Deliver { agent } => Some(*agent),
        Event::Close => None,
    }
}

// The node that an event with this mark and this site sees.
fn seen(event: &Event, mark: Option<Mark>, site: Option<u16>) -> Option<u16>
    ensures { result ≡ seen_by event.now mark site }
{
    match (event, mark) {
        (
            Event::Tell {
                command: Command::Enter | Command::Look | Command::Write { .. },
                ..
            },
            _,
        )
        | (Event::Deliver { .. }, Some(_)) => site,
        _ => None,
    }
}

// The node that an event writes which sees this node.
fn written(event: &Event, seen: Option<u16>) -> Option<u16>
    ensures { result ≡ written_by event.now seen }
{
    match event {
        Event::Tell {
            command: Command::Write { .. },
            ..
        } => seen,
        _ => None,
    }
}

fn closes(event: &Event) -> bool
    ensures { result ≡ closes event.now }
{
    matches!(event, Event::Close)
}
