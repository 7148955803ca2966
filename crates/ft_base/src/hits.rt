ghost use Rattle.std.specs.Prelude.{◌≡◌, ◌+◌, ◌<◌, ◌≤◌, ℕ, Bool, length, IsTrue};
ghost use Rattle.ft_base.specs.Hits.{HitPlace, hit_at, hits_passed, one_further, sought, at_first, is_sorted};

use crate::{Hit, Steps};
use std::sync::ledger::Ledger;

/// A list of hits, sorted by first word, then by last word, then by number of phrase, and a place in it. The calls
/// change the place, never the list, and take no memory.
pub trait Hits {
    /// The list, and the place in it.
    ghost stand: { Self → HitPlace };

    /// Whether the list is plain: its hits are there to be compared one by one, so that each move has its price.
    ghost plain: { Self → Bool };

    /// The hit at the place, and `None` exactly at the end of the list.
    fn here(&self) -> Option<Hit>
        ensures hit { result ≡ hit_at (stand self.now) }
        ensures sorted { IsTrue (is_sorted ((stand self.now).hits)) };

    /// Moves one hit on. A plain list counts one step.
    fn next<L: Ledger>(&mut self, steps: &mut Steps<L>)
        requires { (stand self.old).place < length ((stand self.old).hits) }
        ensures moved { stand self.new ≡ one_further (stand self.old) }
        ensures plain { plain self.new ≡ plain self.old }
        ensures counted { IsTrue (plain self.old) → steps.new ≡ steps.old + 1 }
        ensures grown { steps.old ≤ steps.new };

    /// Moves to the first hit, from the place on, whose first word is at or after the word `from`, or to the end. A
    /// plain list counts a step for each hit that it compares, at most one more than it passes.
    fn seek<L: Ledger>(&mut self, from: u32, steps: &mut Steps<L>)
        ensures moved { stand self.new ≡ sought from (stand self.old) }
        ensures plain { plain self.new ≡ plain self.old }
        ensures counted { IsTrue (plain self.old) → steps.new ≤ steps.old + hits_passed from (stand self.old) + 1 }
        ensures grown { steps.old ≤ steps.new };

    /// Moves back to the first hit.
    fn rewind(&mut self)
        ensures moved { stand self.new ≡ at_first (stand self.old) }
        ensures plain { plain self.new ≡ plain self.old };
}
