//! Documents out of the slots, whose nodes carry their references.

ghost use Rattle.std.specs.Prelude.{◌≡◌, map, reverse};
ghost use Rattle.ordered_tree.specs.Numbered.{first_of, reference};
ghost use Rattle.ordered_tree.specs.RefView.{ref_node, ref_nodes};

use crate::NodeRef;
use crate::shared_attrs::SharedAttrs;
use crate::shared_name::SharedName;
use crate::shared_text::SharedText;
use ft_base::Items;

/// A list of children with their references, in the order of the document.
pub type RefKids = Items<RefTree>;

/// A node of a document with its reference, and with all that is below it.
#[derive(Drop)]
pub enum RefTree {
    /// An element with its name, its attributes and its children.
    Element {
        node: NodeRef,
        name: SharedName,
        attrs: SharedAttrs,
        kids: RefKids,
    },
    /// A text.
    Text {
        node: NodeRef,
        text: SharedText,
    },
}

impl RefTree {
    /// The reference of the node.
    #[tactic(auto, using(crate::proofs::RefViews::ref_views))]
    pub fn reference(&self) -> NodeRef
        ensures { result ≡ reference (ref_node self.now) }
    {
        match self {
            RefTree::Element { node, .. } | RefTree::Text { node, .. } => *node,
        }
    }
}

/// The reference of the last of the nodes.
pub(crate) fn last_reference(nodes: &[RefTree]) -> Option<NodeRef>
    ensures { result ≡ first_of (ref_nodes (map ref_node (reverse nodes.now))) }
{
    let count = nodes.len();
    if count == 0 {
        return None;
    }
    Some(nodes[count - 1].reference())
}
