//! The black holes of a setup.

ghost use Rattle.std.specs.Prelude.{◌≡◌, nat_eq};
ghost use Rattle.std.specs.Cmp.{partial_equiv_from_equiv};
ghost use Rattle.std.specs.Cmp.Lexicographic.{pointwise, nat_list_eq_equiv};
ghost use Rattle.bhs_model.specs.Worlds.{is_hole};

use bhs_net::Memory;
use std::marker::Model;

/// The black holes of a match. Contracts see them as the list of their nodes.
#[derive(Debug, Drop)]
pub struct Holes {
    nodes: Vec<u16>,
}

impl Model for Holes {
    ghost use Rattle.std.specs.Prelude.{ℕ, List};

    ghost Value = { List ℕ };

    ghost view = { λ holes. holes.nodes.items };
}

impl Holes {
    /// The nodes.
    pub fn nodes(&self) -> &[u16]
        ensures { result.now ≡ self.now }
    {
        &self.nodes
    }

    /// Whether this node is a black hole.
    pub fn contains(&self, node: u16) -> bool
        ensures { result ≡ is_hole self.now node }
    {
        self.nodes.iter().any(|hole| *hole == node)
    }
}

impl From<Vec<u16>> for Holes {
    ghost from_gives = { λ nodes holes. holes ≡ nodes.items };

    fn from(nodes: Vec<u16>) -> Holes {
        Holes { nodes }
    }
}

impl Clone for Holes {
    ghost is_clone = { λ old new. new ≡ old };

    fn clone(&self) -> Result<Holes, Memory> {
        Ok(Holes {
            nodes: self.nodes.clone()?,
        })
    }
}

impl PartialEq for Holes {
    ghost eq = { pointwise nat_eq };

    ghost laws = { partial_equiv_from_equiv nat_list_eq_equiv };

    fn eq(&self, other: &Holes) -> bool {
        self.nodes() == other.nodes()
    }
}

impl Eq for Holes {
    ghost laws = { nat_list_eq_equiv };
}
