ghost use Rattle.std.specs.Prelude.{◌≡◌, map, IfOk};
ghost use Rattle.plain_tree.specs.View.{node};

use crate::tree::{Attr, Attrs, Kids, Tree};
use ft_base::{Line, Memory};
use std::alloc::Global;

/// A copy of a node, with all that is below it.
#[cycle(copying)]
#[tactic(auto, using(crate::proofs::Views::views))]
pub(crate) fn copy_tree(alloc: Global, tree: &Tree) -> Result<Tree, Memory>
    ensures { IfOk result (λ copy. node copy ≡ node tree.now) }
{
    match tree {
        Tree::Text { text } => Ok(Tree::Text {
            text: Line::read(alloc, text.as_str())?,
        }),
        Tree::Elem { name, attrs, kids } => Ok(Tree::Elem {
            name: Line::read(alloc, name.as_str())?,
            attrs: copy_attrs(alloc, attrs)?,
            kids: copy_kids(alloc, kids.as_slice())?,
        }),
    }
}

/// A copy of the children, with all that is below them.
#[cycle(copying)]
pub(crate) fn copy_kids(alloc: Global, kids: &[Tree]) -> Result<Kids, Memory>
    ensures { IfOk result (λ copies. map node copies ≡ map node kids.now) }
{
    let mut copies = Kids::new(alloc);
    for kid in kids {
        copies.push(copy_tree(alloc, kid)?)?;
    }
    Ok(copies)
}

/// A copy of the attributes.
pub fn copy_attrs(alloc: Global, attrs: &Attrs) -> Result<Attrs, Memory>
    ensures { IfOk result (λ copy. copy ≡ attrs.now) }
{
    let mut copies = Attrs::new(alloc);
    for attr in attrs.as_slice() {
        copies.push(Attr {
            name: Line::read(alloc, attr.name.as_str())?,
            value: Line::read(alloc, attr.value.as_str())?,
        })?;
    }
    Ok(copies)
}
