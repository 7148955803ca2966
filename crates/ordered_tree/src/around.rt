ghost use Rattle.std.specs.Prelude.{◌≡◌, ◌+◌, ◌<◌, ◌^◌, Option, Some, None};

use crate::NodeRef;

/// What stands round a node.
#[derive(Clone, Copy)]
pub struct Around {
    pub(crate) parent: Option<NodeRef>,
    /// The siblings beside it.
    pub(crate) previous: Option<NodeRef>,
    pub(crate) next: Option<NodeRef>,
    /// Its number among the children of its parent, from 1; 0 for the root.
    pub(crate) number: u32,
    /// How many words of the document stand before it.
    pub(crate) before: u32,
}

impl Around {
    ghost use Rattle.ordered_tree.specs.Stands.{round_root, round_first};

    /// What stands round the root.
    pub(crate) fn root() -> Around
        ensures { result ≡ round_root }
    {
        Around {
            parent: None,
            previous: None,
            next: None,
            number: 0,
            before: 0,
        }
    }

    /// What stands round the first child, where no other is known.
    pub(crate) fn first_child(parent: NodeRef, before: u32) -> Around
        ensures { result ≡ round_first before parent }
    {
        Around {
            parent: Some(parent),
            previous: None,
            next: None,
            number: 1,
            before,
        }
    }

    /// What stands round the sibling after the node of this reference and so many words.
    pub(crate) fn following(self, node: NodeRef, words: u32) -> Around
        requires number { self.number + 1 < 2 ^ 32 }
        requires before { self.before + words < 2 ^ 32 }
        ensures { result ≡ record self { previous = Some node; number = self.number + 1; before = self.before + words } }
    {
        Around {
            parent: self.parent,
            previous: Some(node),
            next: self.next,
            number: self.number + 1,
            before: self.before + words,
        }
    }
}
