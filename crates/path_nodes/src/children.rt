ghost use Rattle.std.specs.Prelude.{IfOk};
ghost use Rattle.path_meaning.specs.Elements.{element_children};
ghost use Rattle.path_nodes.specs.References.{IsElement, element_of};
ghost use Rattle.path_nodes.specs.steps.Found.{ReferTo};

use crate::Nodes;
use ft_base::Memory;
use ordered_tree::{DocTree, NodeRef};
use std::alloc::Global;

/// The elements among the children of an element, in order.
pub(crate) fn element_children(
    alloc: Global,
    tree: &DocTree,
    node: NodeRef,
) -> Result<Nodes, Memory>
    requires { IsElement tree.now.root node }
    ensures { IfOk result (ReferTo tree.now.root (element_children (element_of tree.now.root node))) }
{
    let mut children = Nodes::new(alloc);
    let mut link = tree.first_child(node);
    while let Some(child) = link {
        if tree.is_element(child) {
            children.push(child)?;
        }
        link = tree.next(child);
    }
    Ok(children)
}
