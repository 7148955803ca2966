ghost use Rattle.std.specs.Prelude.{◌≡◌, ◌||◌, ℕ};
ghost use Rattle.index_groups.specs.Groups.{in_group, same_group};

use ft_base::{DocId, Memory};
use shared_list::Share;
use std::alloc::Global;
use std::marker::Model;

/// How many groups there are: as many as a number of 64 bits has bits.
const GROUPS: u32 = 64;

/// Some of the groups of documents. Contracts see the number that has a bit for each of them.
#[derive(Clone, Copy, Drop)]
pub struct Groups {
    bits: u64,
}

impl Model for Groups {
    ghost use Rattle.std.specs.Prelude.{ℕ, refl};

    ghost Value = { ℕ };

    ghost view = { λ inside. inside.bits };

    ghost inverse = { λ bits. record { bits = bits } };

    ghost inverse_ok = { λ inside _. refl };
}

impl Groups {
    /// None of the groups.
    pub(crate) fn none() -> Groups
        ensures { result ≡ 0 }
    {
        Groups { bits: 0 }
    }

    /// Whether the document's group is one of these.
    pub fn may_have(self, doc: DocId) -> bool
        ensures { result ≡ in_group self doc.0 }
    {
        (self.bits >> (doc.0 % GROUPS)) & 1 == 1
    }

    /// These groups with the document's.
    pub(crate) fn with_group_of(self, doc: DocId) -> Groups
        ensures { (other : ℕ) → in_group result other ≡ (in_group self other || same_group doc.0 other) }
    {
        Groups {
            bits: self.bits | (1 << (doc.0 % GROUPS)),
        }
    }
}

impl Share for Groups {
    fn copies(alloc: Global, items: &[Groups]) -> Result<Vec<Groups>, Memory> {
        Ok(Vec::from_slice(alloc, items)?)
    }
}
