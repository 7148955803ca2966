ghost use Rattle.std.specs.Prelude.{◌≡◌, map, Some, IfOk};
ghost use Rattle.plain_tree.specs.Document.{nodes};
ghost use Rattle.plain_tree.specs.View.{node};
ghost use Rattle.ordered_tree.specs.Numbered.{plain, plain_children};
ghost use Rattle.ordered_tree.specs.Slots.{IsRow, row, node_at};

use crate::NodeRef;
use crate::slot::Held;
use crate::slots::Slots;
use ft_base::{Line, Memory};
use plain_tree::{Kids, Tree};
use std::alloc::Global;

/// The node of this reference as a plain tree, with all that is below it.
#[cycle(plain)]
pub(crate) fn tree_of(alloc: Global, slots: &Slots, here: NodeRef) -> Result<Tree, Memory>
    requires { IsRow slots.now (Some here) }
    ensures { IfOk result (λ tree. node tree ≡ plain (node_at slots.now here)) }
{
    let slot = slots.get(here.0 as usize);
    match slot.held {
        Held::Text { text } => Ok(Tree::Text {
            text: Line::read(alloc, text.as_str())?,
        }),
        Held::Element { name, attrs } => Ok(Tree::Elem {
            name: Line::read(alloc, name.as_str())?,
            attrs: attrs.to_attrs(alloc)?,
            kids: kids_of(alloc, slots, slot.first_child)?,
        }),
        Held::Free => unreachable!(),
    }
}

/// The nodes from a link on as plain trees.
#[cycle(plain)]
fn kids_of(alloc: Global, slots: &Slots, first: Option<NodeRef>) -> Result<Kids, Memory>
    requires { IsRow slots.now first }
    ensures { IfOk result (λ kids. nodes (map node kids) ≡ plain_children (row slots.now first)) }
{
    let mut kids = Kids::new(alloc);
    let mut link = first;
    while let Some(here) = link {
        kids.push(tree_of(alloc, slots, here)?)?;
        link = slots.get(here.0 as usize).around.next;
    }
    Ok(kids)
}
