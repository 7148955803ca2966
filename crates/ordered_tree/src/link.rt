//! Links between nodes, as heads keep them.

ghost use Rattle.std.specs.Prelude.{◌≡◌, ◌^◌};
ghost use Rattle.ordered_tree.specs.steps.LinksBelow.{LeadsBelow};

use crate::NodeRef;
use std::marker::Model;

/// A link to a node, or to none, in no more memory than the number of a node takes. Contracts see where it leads.
#[derive(Clone, Copy)]
pub(crate) struct Link {
    /// One more than the number of the node; 0 where there is none
    kept: u32,
}

impl Model for Link {
    ghost use Rattle.std.specs.Prelude.{Option};
    ghost use Rattle.ft_base.specs.declared.ids.NodeRef.{NodeRef};
    ghost use Rattle.ordered_tree.specs.steps.Links.{kept_of, node_of, kept_back};

    ghost Value = { Option NodeRef };

    ghost view = { λ inside. node_of inside.kept };

    ghost inverse = { λ link. record { kept = kept_of link } };

    ghost inverse_ok = { λ inside _. kept_back inside.kept };
}

impl Link {
    /// The link to a node, whose number is one of a slot.
    pub(crate) fn to(node: Option<NodeRef>) -> Link
        requires { LeadsBelow (2 ^ 31) node }
        ensures { result ≡ node }
    {
        match node {
            Some(node) => Link { kept: node.0 + 1 },
            None => Link { kept: 0 },
        }
    }

    /// The node to which it leads.
    pub(crate) fn node(self) -> Option<NodeRef>
        ensures { result ≡ self }
    {
        match self.kept.checked_sub(1) {
            Some(number) => Some(NodeRef(number)),
            None => None,
        }
    }
}
