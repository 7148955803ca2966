ghost use Rattle.std.specs.Prelude.{◌≡◌, IfOk, nat_eq, string_bytes};
ghost use Rattle.std.specs.Cmp as Cmp;
ghost use Rattle.std.specs.Cmp.Lexicographic.{nat_list_eq_equiv, pointwise};
ghost use Rattle.std.specs.Cmp.Rules.{hashing};
ghost use Rattle.std.specs.Hash as fed;
ghost use borrow.Author.Rules.{rules};

use crate::Memory;
use std::alloc::Global;
use std::hash::{Hash, Hasher};
use std::marker::Model;

/// A text, which contracts see as the list of its UTF-8 bytes.
#[derive(Drop)]
pub struct Line {
    text: String,
}

impl Model for Line {
    ghost use Rattle.std.specs.Prelude.{List, ℕ, string_bytes};

    ghost Value = { List ℕ };

    ghost view = { λ line. string_bytes line.text };
}

impl Line {
    /// A line with the text's bytes.
    pub fn read(alloc: Global, text: &str) -> Result<Line, Memory>
        ensures { IfOk result (λ line. line ≡ text.now) }
    {
        let text = String::from_str(alloc, text)?;
        Ok(Line { text })
    }

    /// The string as a line, in its memory.
    pub fn from_string(text: String) -> Line
        ensures { result ≡ string_bytes text }
    {
        Line { text }
    }

    /// The text as a string, in its memory.
    pub fn into_string(self) -> String
        ensures { string_bytes result ≡ self }
    {
        self.text
    }

    /// The text.
    pub fn as_str(&self) -> &str
        ensures { result.now ≡ self.now }
    {
        self.text.as_str()
    }
}

impl PartialEq for Line {
    ghost eq = { λ a b. pointwise nat_eq a b };

    ghost laws = { Cmp.partial_equiv_from_equiv nat_list_eq_equiv };

    fn eq(&self, other: &Self) -> bool {
        self.text.as_str() == other.text.as_str()
    }
}

impl Eq for Line {
    ghost laws = { nat_list_eq_equiv };
}

impl Hash for Line {
    ghost hash_input = { λ line. fed.str line };

    ghost respects_eq = { Prim.search (hashing, rules) };

    fn hash<H: Hasher>(&self, state: &mut H) {
        self.text.as_str().hash(state);
    }
}
