//! One pass over a log and its sites.

ghost use Rattle.std.specs.Prelude.{◌≡◌, ◌+◌, ◌-◌, ◌<◌, ◌^◌, length, true, false, slice_set, slice_index_or};
ghost use Rattle.bhs_referee.specs.Walks.{start, accused_at, accused_told, moves_told, walk_told, walk_delivered};
ghost use Rattle.bhs_referee.specs.Walks.{walk_after, walk_from};

use bhs_match::Site;
use bhs_model::{Command, Event, Kept, MAX_AGENTS, Mark};
use bhs_net::MAX_NODES;

/// What a pass over a log and its sites keeps: of each agent the link that it accused, by the node where it was and the
/// port; of each node whether an agent arrived there; and how many Departs were answered Gone.
#[derive(Clone, Copy)]
pub struct Walk {
    pub accused: [Option<(u16, u16)>; MAX_AGENTS as usize],
    pub reached: [bool; MAX_NODES as usize],
    pub moves: u32,
}

impl Walk {
    /// Before the first event.
    pub fn new() -> Walk
        ensures { result ≡ start }
    {
        Walk {
            accused: [None; MAX_AGENTS as usize],
            reached: [false; MAX_NODES as usize],
            moves: 0,
        }
    }

    /// The link that an agent accused.
    pub(crate) fn accused(&self, agent: u16) -> Option<(u16, u16)>
        ensures { result ≡ accused_at self.now.accused agent }
    {
        match self.accused.get(usize::from(agent)) {
            Some(link) => *link,
            None => None,
        }
    }

    /// Whether an agent arrived at this node.
    pub(crate) fn is_reached(&self, node: u16) -> bool
        ensures { result ≡ slice_index_or self.now.reached node false }
    {
        match self.reached.get(usize::from(node)) {
            Some(reached) => *reached,
            None => false,
        }
    }

    // Keeps this link of an agent.
    #[tactic(auto, using(std::proofs::lemmas::List::set_past))]
    pub fn keep(&mut self, agent: u16, link: Option<(u16, u16)>)
        ensures { self.new ≡ record self.old { accused = slice_set self.old.accused agent link } }
    {
        if usize::from(agent) < self.accused.len() {
            self.accused[usize::from(agent)] = link;
        }
    }

    // Marks a node as reached.
    #[tactic(auto, using(std::proofs::lemmas::List::set_past))]
    pub fn mark(&mut self, node: u16)
        ensures { self.new ≡ record self.old { reached = slice_set self.old.reached node true } }
    {
        if usize::from(node) < self.reached.len() {
            self.reached[usize::from(node)] = true;
        }
    }

    // Goes over a command that was heard at this site.
    fn hear(&mut self, agent: u16, command: &Command, mark: Option<Mark>, site: Option<u16>)
        requires { self.old.moves + 1 < 2 ^ 32 }
        ensures { self.new ≡ walk_told self.old agent command.now mark site }
    {
        self.keep(
            agent,
            accused_told(mark, command, site, self.accused(agent)),
        );
        self.moves = moves_told(mark, self.moves);
    }

    // Goes over a Deliver of an agent that was bound for this site.
    fn deliver(&mut self, mark: Option<Mark>, site: Option<u16>)
        ensures { self.new ≡ walk_delivered self.old mark site }
    {
        if let (Some(_), Some(node)) = (mark, site) {
            self.mark(node);
        }
    }

    // Goes over an event of the log with this site.
    fn see(&mut self, kept: &Kept, site: Option<u16>)
        requires { self.old.moves + 1 < 2 ^ 32 }
        ensures { self.new ≡ walk_after self.old kept.now site }
    {
        match &kept.event {
            Event::Tell { agent, command } => self.hear(*agent, command, kept.mark, site),
            Event::Deliver { .. } => self.deliver(kept.mark, site),
            Event::Close => {}
        }
    }
}

// The link that an agent has accused after a command with this mark and this site.
fn accused_told(
    mark: Option<Mark>,
    command: &Command,
    site: Option<u16>,
    before: Option<(u16, u16)>,
) -> Option<(u16, u16)>
    ensures { result ≡ accused_told mark command.now site before }
{
    match (mark, command, site) {
        (Some(Mark::Noted), Command::Accuse { port }, Some(node)) => Some((node, *port)),
        _ => before,
    }
}

// The number of moves after a command with this mark.
fn moves_told(mark: Option<Mark>, moves: u32) -> u32
    requires { moves + 1 < 2 ^ 32 }
    ensures { result ≡ moves_told mark moves }
{
    match mark {
        Some(Mark::Gone) => moves + 1,
        _ => moves,
    }
}

/// What a log and its sites show, in one pass.
pub(crate) fn walked(log: &[Kept], sites: &[Site]) -> Walk
    requires sites { length sites.now ≡ length log.now }
    requires room { length log.now < 2 ^ 32 - 1 }
    ensures { result ≡ walk_from start log.now sites.now }
{
    let mut walk = Walk::new();
    for place in 0..log.len() {
        walk.see(&log[place], sites[place].node());
    }
    walk
}
