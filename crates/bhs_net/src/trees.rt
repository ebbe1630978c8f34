//! A depth-first search shows that most nodes of a network cut nothing. A node cuts nothing if a way leads past it from
//! each node that was found from it (J. Hopcroft and R. Tarjan, "Algorithm 447: efficient algorithms for graph
//! manipulation", Communications of the ACM 16, 1973). Nothing is proved of how the search found its tables: they are
//! checked.

ghost use Rattle.std.specs.Prelude.{◌≡◌, ◌<◌, ◌⊎◌, true};
ghost use Rattle.bhs_net.specs.Network.{network_of, IsPortLabelled};
ghost use Rattle.bhs_net.specs.DepthFirst.{place_in};
ghost use Rattle.bhs_net.specs.Trees.{HasHead, Hangs, IsTree, LeadsPast, AllLeadPast};

use crate::depth_first_search::DepthFirst;
use crate::link_rows::End;

// Returns the table's entry for a node.
fn entry(table: &[u16], node: usize) -> usize
    ensures { result ≡ place_in table.now node }
{
    match table.get(node) {
        Some(entry) => usize::from(*entry),
        None => 0,
    }
}

// Whether a row leads to a node.
fn has_head(row: &[End], node: usize) -> bool
    ensures { result ≡ true → HasHead row.now node }
{
    for end in row {
        if usize::from(end.0) == node {
            return true;
        }
    }
    false
}

impl DepthFirst {
    /// Returns whether the tables describe a search tree of the rows.
    pub fn is_tree(&self, rows: &[Vec<End>]) -> bool
        requires { IsPortLabelled (network_of rows.now) }
        ensures { result ≡ true → IsTree (network_of rows.now) self.now }
    {
        if entry(&self.places, 0) != 0 {
            return false;
        }
        for (node, row) in rows.iter().enumerate() {
            if node != 0 && !self.hangs(row, rows.len(), node) {
                return false;
            }
        }
        true
    }

    // Whether a node with this row hangs in the tree.
    fn hangs(&self, row: &[End], nodes: usize, node: usize) -> bool
        ensures { result ≡ true → Hangs row.now self.now nodes node }
    {
        let place = entry(&self.places, node);
        let parent = entry(&self.parents, node);
        let escape = entry(&self.escapes, node);
        if place >= nodes || entry(&self.places, parent) >= place {
            return false;
        }
        if !has_head(row, parent) || !has_head(row, escape) {
            return false;
        }
        self.is_lowest(node, escape)
    }

    // Returns whether the low point of a node is a neighbour's place, or the low point of a neighbour that was
    // discovered later.
    fn is_lowest(&self, node: usize, escape: usize) -> bool
        ensures { result ≡ true → (place_in self.now.places escape ≡ place_in self.now.lows node)
            ⊎ ((place_in self.now.lows escape ≡ place_in self.now.lows node)
            × (place_in self.now.places node < place_in self.now.places escape)) }
    {
        let low = entry(&self.lows, node);
        if entry(&self.places, escape) == low {
            return true;
        }
        entry(&self.lows, escape) == low && entry(&self.places, node) < entry(&self.places, escape)
    }

    /// Whether ways lead past a node from all that were found from it.
    pub fn all_lead_past(&self, nodes: usize, node: usize) -> bool
        ensures { result ≡ true → AllLeadPast self.now nodes node }
    {
        for child in 1..nodes {
            if entry(&self.parents, child) == node && !self.leads_past(node, child) {
                return false;
            }
        }
        true
    }

    // Whether a way leads past a node from one that was found from it.
    fn leads_past(&self, node: usize, child: usize) -> bool
        ensures { result ≡ true → LeadsPast self.now node child }
    {
        if node == 0 {
            child == entry(&self.found, 1)
        } else {
            entry(&self.lows, child) < entry(&self.places, node)
        }
    }
}
