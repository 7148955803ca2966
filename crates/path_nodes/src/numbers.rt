ghost use Rattle.std.specs.Prelude.{All, IfOk, map};
ghost use Rattle.path_meaning.specs.Meaning as meaning;
ghost use Rattle.path_nodes.specs.References.{IsElement, element_of};
ghost use Rattle.path_nodes.specs.steps.Found.{ReferTo};

use crate::Nodes;
use ft_base::Memory;
use ordered_tree::DocTree;
use std::alloc::Global;

/// The item of this number, counted from 1, if there are so many.
pub(crate) fn numbered(
    alloc: Global,
    tree: &DocTree,
    number: u32,
    items: &Nodes,
) -> Result<Nodes, Memory>
    requires { All (IsElement tree.now.root) items.now }
    ensures { IfOk result (ReferTo tree.now.root (meaning.numbered number (map (element_of tree.now.root) items.now))) }
{
    let _root = tree.root();
    let mut kept = Nodes::new(alloc);
    if number == 0 {
        return Ok(kept);
    }
    let index = number as usize - 1;
    if index < items.len() {
        kept.push(*items.get(index))?;
    }
    Ok(kept)
}
