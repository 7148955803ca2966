ghost use Rattle.std.specs.Prelude.{◌≡◌, ◌∷◌, [], ◌++◌, All, Bool, IfOk, OnOk, filter, flat_map, map};
ghost use Rattle.ft_base.specs.declared.ids.NodeRef.{NodeRef};
ghost use Rattle.path_meaning.specs.Elements.{Element};
ghost use Rattle.path_nodes.specs.steps.Marks.{is_marked};
ghost use Rattle.path_nodes.specs.References.{IsElement, element_of};
ghost use Rattle.path_nodes.specs.steps.Found.{ReferTo};
ghost use Rattle.path_nodes.specs.steps.Regions.{at_or_below, below};
ghost use Rattle.path_nodes.specs.steps.Ways.{LeadTo};

use crate::Nodes;
use crate::children::element_children;
use crate::kept::push_if;
use crate::marks::{Marks, has_mark};
use ft_base::Memory;
use ordered_tree::{DocTree, NodeRef};
use std::alloc::Global;

/// Puts an element and all elements below it to the end, in document order.
pub(crate) fn add_elements(
    alloc: Global,
    tree: &DocTree,
    here: NodeRef,
    found: &mut Nodes,
) -> Result<(), Memory>
    requires here { IsElement tree.now.root here }
    requires found { All (IsElement tree.now.root) found.old }
    ensures elements { OnOk result (map (element_of tree.now.root) found.new
        ≡ map (element_of tree.now.root) found.old ++ at_or_below (element_of tree.now.root here)) }
    ensures there { OnOk result (All (IsElement tree.now.root) found.new) }
{
    found.push(here)?;
    let children = element_children(alloc, tree, here)?;
    for child in children.as_slice() {
        add_elements(alloc, tree, *child, found)?;
    }
    Ok(())
}

/// The elements and all elements below them, those of each one after those of the one before.
pub(crate) fn with_descendants(
    alloc: Global,
    tree: &DocTree,
    contexts: &Nodes,
) -> Result<Nodes, Memory>
    requires { All (IsElement tree.now.root) contexts.now }
    ensures { IfOk result (ReferTo tree.now.root (flat_map at_or_below (map (element_of tree.now.root) contexts.now))) }
{
    let mut found = Nodes::new(alloc);
    for context in contexts.as_slice() {
        add_elements(alloc, tree, *context, &mut found)?;
    }
    Ok(found)
}

/// Puts the marked elements below an element to the end, in document order. What is below an element that leads to none of
/// them isn't looked at.
pub(crate) fn add_marked(
    alloc: Global,
    tree: &DocTree,
    here: NodeRef,
    marks: &Marks,
    ways: &Marks,
    found: &mut Nodes,
) -> Result<(), Memory>
    requires here { IsElement tree.now.root here }
    requires found { All (IsElement tree.now.root) found.old }
    ensures elements { OnOk result ((test : Element → Bool)
        → ((r : NodeRef) → IsElement tree.now.root r → is_marked marks.now r ≡ test (element_of tree.now.root r))
        → LeadTo tree.now.root ways.now test
        → map (element_of tree.now.root) found.new ≡ map (element_of tree.now.root) found.old ++ filter test (below (element_of tree.now.root here))) }
    ensures there { OnOk result (All (IsElement tree.now.root) found.new) }
{
    if !has_mark(ways, here) {
        return Ok(());
    }
    let children = element_children(alloc, tree, here)?;
    for child in children.as_slice() {
        push_marked(marks, *child, found)?;
        add_marked(alloc, tree, *child, marks, ways, found)?;
    }
    Ok(())
}

/// The marked elements at and below an element, in document order.
pub(crate) fn marked_from(
    alloc: Global,
    tree: &DocTree,
    here: NodeRef,
    marks: &Marks,
    ways: &Marks,
) -> Result<Nodes, Memory>
    requires { IsElement tree.now.root here }
    ensures elements { IfOk result (λ found. (test : Element → Bool)
        → ((r : NodeRef) → IsElement tree.now.root r → is_marked marks.now r ≡ test (element_of tree.now.root r))
        → LeadTo tree.now.root ways.now test
        → map (element_of tree.now.root) found ≡ filter test (at_or_below (element_of tree.now.root here))) }
    ensures there { IfOk result (All (IsElement tree.now.root)) }
{
    let mut found = Nodes::new(alloc);
    push_marked(marks, here, &mut found)?;
    add_marked(alloc, tree, here, marks, ways, &mut found)?;
    Ok(found)
}

/// Puts a node to the end where it is marked.
fn push_marked(marks: &Marks, node: NodeRef, found: &mut Nodes) -> Result<(), Memory>
    ensures { OnOk result (found.new ≡ found.old ++ filter (is_marked marks.now) (node ∷ [])) }
{
    push_if(has_mark(marks, node), node, found)
}
