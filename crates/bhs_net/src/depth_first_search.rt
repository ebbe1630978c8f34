//! An st-numbering shows that no node cuts a network: each node except the first has a neighbour at a lower place, each
//! node except the last a neighbour at a higher place, and the first and the last node are neighbours. Without any one
//! node, lower nodes still lead down to the first node, and higher nodes up to the last. A. Lempel, S. Even and I.
//! Cederbaum ("An algorithm for planarity testing of graphs", 1967) showed that each 2-connected network has one. R. E.
//! Tarjan ("Two streamlined depth-first search algorithms", Fundamenta Informaticae 9, 1986) computes it by depth-first
//! search. The computation is not proved; its result is checked. Both take time linear in the number of ports.

ghost use Rattle.std.specs.Prelude.{◌≡◌, ◌<◌, true};
ghost use Rattle.bhs_net.specs.Network.{network_of, IsPortLabelled, IsNetwork};
ghost use Rattle.bhs_net.specs.declared.depth_first_search.TheConstants.{NODES};
ghost use Rattle.bhs_net.specs.DepthFirst.{LeadsOn};

use crate::link_rows::End;

/// The size of tables indexed by node: the largest number of nodes, a power of two.
pub const NODES: usize = 4096;

// The most steps of a search: one for each port, and one back from each node.
const STEPS: usize = NODES * NODES;

/// The nodes by place, and the places by node.
#[derive(Drop)]
pub struct NodeOrder {
    nodes: [u16; NODES],
    places: [u16; NODES],
}

/// A depth-first search from node 0. By place: the discovered nodes. By node: its place, its parent, its low point (the
/// least place to which a link leads from the node or from a descendant), and the neighbour over which the path to the
/// low point begins.
#[derive(Drop)]
pub struct DepthFirst {
    pub found: [u16; NODES],
    last: u16,
    pub places: [u16; NODES],
    pub parents: [u16; NODES],
    pub lows: [u16; NODES],
    pub escapes: [u16; NODES],
}

// A node's place in a table by node.
fn at(node: u16) -> usize
    ensures { result < NODES }
{
    usize::from(node) % NODES
}

// The node to which a port leads.
fn head(rows: &[Vec<End>], node: u16, port: usize) -> Option<u16> {
    match rows.get(at(node)) {
        Some(row) => match row.get(port) {
            Some(end) => Some(end.0),
            None => None,
        },
        None => None,
    }
}

impl DepthFirst {
    // Notes that a node was found from another.
    fn find(&mut self, node: u16, from: u16) {
        self.last = self.last.wrapping_add(1);
        self.found[at(self.last)] = node;
        self.places[at(node)] = self.last;
        self.parents[at(node)] = from;
        self.lows[at(node)] = self.last;
    }

    // Notes that a way to this place begins at a node over this neighbour, if no lower place is known.
    fn lower(&mut self, here: usize, place: u16, neighbour: u16)
        requires { here < NODES }
    {
        if place < self.lows[here] {
            self.lows[here] = place;
            self.escapes[here] = neighbour;
        }
    }
}

/// Searches depth first. Once all nodes are found, a node that is known to lead back to the first one is left at once,
/// since its other links say no more. Neither counter wraps: a node has fewer ports than there are nodes, and fewer
/// nodes are found behind the first.
pub fn depth_first(rows: &[Vec<End>]) -> DepthFirst {
    let mut search = DepthFirst {
        found: [0; NODES],
        last: 0,
        places: [0; NODES],
        parents: [0; NODES],
        lows: [0; NODES],
        escapes: [0; NODES],
    };
    let mut ports = [0; NODES];
    let mut node = 0;
    for _ in 0..STEPS {
        let here = at(node);
        let is_done = search.lows[here] == 0 && at(search.last) + 1 == rows.len();
        let next = if is_done {
            None
        } else {
            head(rows, node, ports[here])
        };
        if let Some(other) = next {
            ports[here] = ports[here].wrapping_add(1);
            let to = at(other);
            if other == 0 || search.places[to] != 0 {
                let place = search.places[to];
                search.lower(here, place, other);
            } else {
                search.find(other, node);
                node = other;
            }
        } else if node == 0 {
            break;
        } else {
            let child = node;
            let low = search.lows[here];
            node = search.parents[here];
            search.lower(at(node), low, child);
        }
    }
    search
}

/// Computes an order of the nodes, an st-numbering where one exists; the proof checks results only. Places each node
/// next to its parent, before or behind.
pub fn order_of(search: &DepthFirst) -> NodeOrder {
    let second = search.found[1];
    let mut before = [0; NODES];
    let mut behind = [0; NODES];
    let mut goes_behind = [false; NODES];
    before[0] = second;
    behind[0] = second;
    for place in 2..=search.last {
        let node = search.found[at(place)];
        let parent = search.parents[at(node)];
        let low = search.found[at(search.lows[at(node)])];
        let is_behind = goes_behind[at(low)];
        goes_behind[at(parent)] = !is_behind;
        let next = if is_behind {
            behind[at(parent)]
        } else {
            parent
        };
        let previous = before[at(next)];
        before[at(node)] = previous;
        behind[at(node)] = next;
        behind[at(previous)] = node;
        before[at(next)] = node;
    }
    let mut order = NodeOrder {
        nodes: [0; NODES],
        places: [0; NODES],
    };
    let mut node = 0;
    for place in 0..=search.last {
        order.nodes[at(place)] = node;
        order.places[at(node)] = place;
        node = behind[at(node)];
    }
    order
}

// Returns whether a row has a neighbour at a lower place, except for the first place; a neighbour at a higher place,
// except for the last; and whether the first and the last node are neighbours.
fn leads_on(row: &[End], places: &[u16], place: u16, last: u16) -> bool
    ensures { result ≡ true → LeadsOn row.now places.now place last }
{
    let mut leads_down = place == 0;
    let mut leads_up = place == last;
    let mut leads_around = place != 0;
    for end in row {
        if let Some(other) = places.get(usize::from(end.0)) {
            leads_down = leads_down || *other < place;
            leads_up = leads_up || *other > place;
            leads_around = leads_around || *other == last;
        }
    }
    leads_down && leads_up && leads_around
}

impl NodeOrder {
    /// Returns whether the order is an st-numbering, which shows that no node cuts the rows.
    pub fn shows_network(&self, rows: &[Vec<End>]) -> bool
        requires { IsPortLabelled (network_of rows.now) }
        ensures { result ≡ true → IsNetwork (network_of rows.now) }
    {
        let last = rows.len() - 1;
        for (node, row) in rows.iter().enumerate() {
            let place = self.places[node];
            if usize::from(place) > last
                || usize::from(self.nodes[usize::from(place)]) != node
                || !leads_on(row, &self.places, place, last as u16)
            {
                return false;
            }
        }
        true
    }
}
