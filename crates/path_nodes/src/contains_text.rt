ghost use Rattle.std.specs.Prelude.{◌≡◌, ◌≢◌, ◌≤◌, ◌+◌, [], ℕ, All, Bool, false, true, IfOk, IsTrue};
ghost use Rattle.path_nodes.specs.Says.{Meaning};

use crate::Nodes;
use ft_base::Memory;
use ordered_tree::NodeRef;

/// What answers `contains text`.
pub trait TextTest {
    /// For which pairs of a selection's number and a node it may be asked, what it says of each, its price, where the node's words
    /// stand, and what it is lent. It never changes.
    ghost meaning: { Self → Meaning };

    /// What was spent on the tests so far.
    ghost cost: { Self → ℕ };

    /// Whether the node satisfies the selection of this number. The selections of a path are numbered from 0 in the
    /// order of its text. It spends at most the price. Answers `Memory` for want of memory alone.
    fn contains(&mut self, selection: usize, node: NodeRef) -> Result<bool, Memory>
        requires { IsTrue ((meaning self.old).may_ask selection node) }
        ensures says { IfOk result (λ is. is ≡ (meaning self.old).says selection [] node) }
        ensures meaning { meaning self.new ≡ meaning self.old }
        ensures cost { cost self.new ≤ cost self.old + (meaning self.old).price selection node };

    /// A place up to which the selection of this number is known by now not to be satisfied: no node for which it may be asked, whose
    /// span starts at `from` or after it and ends at or before the result, satisfies it. 0 says nothing. It spends nothing, so that it
    /// tells no more than what was found when it was asked before.
    fn skip_to(&self, selection: usize, from: u32) -> u32
        ensures { (node : NodeRef) → IsTrue ((meaning self.now).may_ask selection node) → from ≤ ((meaning self.now).span node).from
            → ((meaning self.now).span node).to ≤ result → (meaning self.now).says selection [] node ≡ false };
}

/// What answers `contains text` with `without content` too.
pub trait HoleTest: TextTest {
    /// Whether tests of this type may be given holes.
    ghost takes_holes: { Bool };

    /// Whether the node satisfies the selection of this number when what the holes have in it is taken out of it. The holes are nodes in document order,
    /// each once; they may stand outside of the node, and one of them may be the node or hold it. It spends at most the price of the node. Answers
    /// `Memory` for want of memory alone.
    fn contains_without(
        &mut self,
        selection: usize,
        node: NodeRef,
        holes: &Nodes,
    ) -> Result<bool, Memory>
        requires given { holes.now ≢ [] → takes_holes ≡ true }
        requires node { IsTrue ((Self.meaning self.old).may_ask selection node) }
        requires holes { All (λ hole. IsTrue ((Self.meaning self.old).may_ask selection hole)) holes.now }
        ensures says { IfOk result (λ is. is ≡ (Self.meaning self.old).says selection holes.now node) }
        ensures meaning { Self.meaning self.new ≡ Self.meaning self.old }
        ensures cost { Self.cost self.new ≤ Self.cost self.old + (Self.meaning self.old).price selection node };
}
