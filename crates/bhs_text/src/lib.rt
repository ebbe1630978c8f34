//! Texts of agents and of words, and the names of teams.
#![tactic(auto)]

ghost use Rattle.std.specs.Prelude.{◌≡◌, [], nat_eq, IfOk};
ghost use Rattle.std.specs.Cmp.{partial_equiv_from_equiv};
ghost use Rattle.std.specs.Cmp.Lexicographic.{pointwise, nat_list_eq_equiv};

mod teams;

use std::alloc::{AllocError, Global};
use std::marker::Model;
use std::sync::ArcStr;
pub use teams::{MAX_TEAM, is_team};

/// A text of an agent or of a word: what a whiteboard shows, a client says or a file is named. Contracts see it as its
/// bytes in UTF-8. Its clones share the bytes with it, so a text that is kept in many places takes memory once.
#[derive(Debug, Drop)]
pub struct Text {
    /// None stands for the empty text.
    shared: Option<ArcStr<Global>>,
}

impl Model for Text {
    ghost use Rattle.std.specs.Prelude.{ℕ, List, [], option_map, unwrap_or};
    ghost use Rattle.std.specs.Arc.{arc_str_bytes};

    ghost Value = { List ℕ };

    ghost view = { λ t. unwrap_or (option_map arc_str_bytes t.shared) [] };
}

impl Text {
    /// The empty text. Takes no memory.
    pub fn empty() -> Text
        ensures { result ≡ [] }
    {
        Text { shared: None }
    }

    /// A text of its own, with these bytes.
    pub fn new(alloc: Global, text: &str) -> Result<Text, AllocError>
        ensures { IfOk result (λ made. made ≡ text.now) }
    {
        if text.is_empty() {
            return Ok(Text::empty());
        }
        Ok(Text {
            shared: Some(ArcStr::from_str(alloc, text)?),
        })
    }

    /// Borrows the text as a string slice.
    pub fn as_str(&self) -> &str
        ensures { result.now ≡ self.now }
    {
        match &self.shared {
            Some(text) => text.as_str(),
            None => "",
        }
    }
}

impl Clone for Text {
    ghost is_clone = { λ old new. new ≡ old };

    fn clone(&self) -> Result<Text, AllocError> {
        match &self.shared {
            Some(text) => Ok(Text {
                shared: Some(text.clone()?),
            }),
            None => Ok(Text::empty()),
        }
    }
}

impl PartialEq for Text {
    ghost eq = { pointwise nat_eq };

    ghost laws = { partial_equiv_from_equiv nat_list_eq_equiv };

    fn eq(&self, other: &Text) -> bool {
        self.as_str() == other.as_str()
    }
}

impl Eq for Text {
    ghost laws = { nat_list_eq_equiv };
}
