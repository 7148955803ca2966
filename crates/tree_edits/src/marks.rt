//! References that are marked, in a table by their numbers.

ghost use Rattle.std.specs.Prelude.{◌≡◌, ◌<◌, ◌||◌, All, IfOk, length, map, replicate, true, false};
ghost use Rattle.std.specs.List.{list_all};
ghost use Rattle.ft_base.specs.declared.ids.NodeRef as declared_ref;
ghost use Rattle.ordered_tree.specs.RefView.{ref_node, ref_nodes};
ghost use Rattle.tree_edits.specs.Edits.{any_names_element, is_among, is_same, names_element, references_in, references_of};
ghost use Rattle.tree_edits.specs.steps.Marks.{is_marked};

use ft_base::{Memory, NodeRef};
use ordered_tree::{NodeRefs, RefTree};
use std::alloc::Global;

/// A table of so many numbers, in which the references of the list are marked.
pub(crate) fn marks_of(alloc: Global, size: usize, refs: &NodeRefs) -> Result<Vec<bool>, Memory>
    ensures { IfOk result (λ marks. (r : declared_ref.NodeRef) → r.0 < size → is_marked marks.items r ≡ is_among refs.now r) }
{
    let mut marks = no_marks(alloc, size)?;
    for node in refs.as_slice() {
        mark(&mut marks, *node);
    }
    Ok(marks)
}

/// Whether each of these references is that of an element of the tree. All references of the tree are below the number.
pub(crate) fn name_elements(
    alloc: Global,
    tree: &RefTree,
    size: usize,
    refs: &NodeRefs,
) -> Result<bool, Memory>
    requires { All (λ r. r.0 < size) (references_in (ref_node tree.now)) }
    ensures { IfOk result (λ all. all ≡ list_all (λ r. names_element r (ref_node tree.now)) refs.now) }
{
    let mut marks = no_marks(alloc, size)?;
    mark_elements(&mut marks, tree);
    Ok(are_marked(&marks, refs.as_slice()))
}

/// Whether the reference is marked.
pub(crate) fn is_marked(marks: &Vec<bool>, node: NodeRef) -> bool
    ensures { result ≡ is_marked marks.now.items node }
{
    let number = node.0 as usize;
    number < marks.len() && marks[number]
}

/// A table of so many numbers, none of which is marked.
fn no_marks(alloc: Global, size: usize) -> Result<Vec<bool>, Memory>
    ensures { IfOk result (λ marks. marks.items ≡ replicate size false) }
{
    Ok(vec![in alloc; false; size]?)
}

/// Marks the reference, if the table has its number.
fn mark(marks: &mut Vec<bool>, node: NodeRef)
    ensures size { length marks.new.items ≡ length marks.old.items }
    ensures marks { (r : declared_ref.NodeRef) → r.0 < length marks.old.items
        → is_marked marks.new.items r ≡ (is_same r node || is_marked marks.old.items r) }
{
    let number = node.0 as usize;
    if number < marks.len() {
        marks[number] = true;
    }
}

/// Marks the elements of a node: itself, and those below it.
#[cycle(marking)]
#[tactic(auto, using(crate::proofs::RowsJoined::ref_views))]
fn mark_elements(marks: &mut Vec<bool>, tree: &RefTree)
    ensures size { length marks.new.items ≡ length marks.old.items }
    ensures marks { (r : declared_ref.NodeRef) → r.0 < length marks.old.items
        → is_marked marks.new.items r ≡ (names_element r (ref_node tree.now) || is_marked marks.old.items r) }
{
    match tree {
        RefTree::Text { .. } => {}
        RefTree::Element { node, kids, .. } => {
            mark_all_elements(marks, kids.as_slice());
            mark(marks, *node);
        }
    }
}

/// The same of nodes.
#[cycle(marking)]
fn mark_all_elements(marks: &mut Vec<bool>, trees: &[RefTree])
    ensures size { length marks.new.items ≡ length marks.old.items }
    ensures marks { (r : declared_ref.NodeRef) → r.0 < length marks.old.items
        → is_marked marks.new.items r ≡ (any_names_element r (ref_nodes (map ref_node trees.now)) || is_marked marks.old.items r) }
{
    for tree in trees {
        mark_elements(marks, tree);
    }
}

/// Whether all of these references are marked.
fn are_marked(marks: &Vec<bool>, refs: &[NodeRef]) -> bool
    ensures { result ≡ list_all (is_marked marks.now.items) refs.now }
{
    refs.iter().all(|node| is_marked(marks, *node))
}
