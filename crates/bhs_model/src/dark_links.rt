//! The dark links of a setup.

ghost use Rattle.std.specs.Prelude.{◌≡◌};
ghost use Rattle.std.specs.Cmp.{partial_equiv_from_equiv};
ghost use Rattle.std.specs.Cmp.Lexicographic.{pointwise};
ghost use Rattle.bhs_model.specs.Ends.{is_same_end, ends_equiv};

use bhs_net::Memory;
use std::marker::Model;

/// The dark links of a match, each named by the node and the port of either of its ends. Contracts see them as the list
/// of these ends.
#[derive(Debug, Drop)]
pub struct DarkLinks {
    ends: Vec<(u16, u16)>,
}

impl Model for DarkLinks {
    ghost use Rattle.std.specs.Prelude.{ℕ, List};

    ghost Value = { List (ℕ × ℕ) };

    ghost view = { λ dark. dark.ends.items };
}

impl DarkLinks {
    /// The ends.
    pub fn ends(&self) -> &[(u16, u16)]
        ensures { result.now ≡ self.now }
    {
        &self.ends
    }
}

impl From<Vec<(u16, u16)>> for DarkLinks {
    ghost from_gives = { λ ends dark. dark ≡ ends.items };

    fn from(ends: Vec<(u16, u16)>) -> DarkLinks {
        DarkLinks { ends }
    }
}

impl Clone for DarkLinks {
    ghost is_clone = { λ old new. new ≡ old };

    fn clone(&self) -> Result<DarkLinks, Memory> {
        Ok(DarkLinks {
            ends: self.ends.clone()?,
        })
    }
}

impl PartialEq for DarkLinks {
    ghost eq = { pointwise is_same_end };

    ghost laws = { partial_equiv_from_equiv ends_equiv };

    fn eq(&self, other: &DarkLinks) -> bool {
        self.ends() == other.ends()
    }
}

impl Eq for DarkLinks {
    ghost laws = { ends_equiv };
}
