//! Edits of documents, as drafts that are looked at before they are put into slots.

ghost use Rattle.std.specs.Prelude.{◌≡◌, ◌+◌, ◌<◌, ◌^◌, ◌||◌, length, map, max, nat_le, true, IfOk};
ghost use Rattle.doc_grammar.specs.Limits.{node_count, nodes_count};
ghost use Rattle.ft_base.specs.Lists.{is_empty};
ghost use Rattle.ordered_tree.specs.Numbered.{plain};
ghost use Rattle.ordered_tree.specs.RefView.{ref_node};
ghost use Rattle.plain_tree.specs.Document.{nodes};
ghost use Rattle.plain_tree.specs.View as view;
ghost use Rattle.tree_edits.specs.Changed.{KeepsOrder};
ghost use Rattle.tree_edits.specs.Drafted.{IsDrafted};
ghost use Rattle.tree_edits.specs.Acts.{act_on, root_stays};
ghost use Rattle.tree_edits.specs.steps.Drafting.{IsDraftOf};

use crate::drafts::Draft;
use crate::edit::Edit;
use crate::editing::edit_root;
use crate::marks::marks_of;
use crate::measuring::size_of;
use ft_base::Memory;
use ordered_tree::{DocTree, NodeRefs, RefTree, count_nodes};
use plain_tree::{How, Kids, Tree};
use std::alloc::Global;

/// What an edit of the elements of these references makes of a document: content inserted, or, where it isn't said how, put in
/// their place. What is below such an element goes with it.
pub fn draft(
    alloc: Global,
    tree: &DocTree,
    chosen: &NodeRefs,
    how: Option<How>,
    content: &Kids,
) -> Result<Draft, Memory>
    requires root { root_stays chosen.now how tree.now.root ≡ true }
    requires few_nodes { node_count (plain tree.now.root) + nodes_count (nodes (map view.node content.now)) < 2 ^ 31 }
    requires once { (nat_le (length chosen.now) 1 || is_empty content.now) ≡ true }
    ensures drafted { IfOk result (λ draft. IsDrafted (act_on chosen.now how) (nodes (map view.node content.now)) tree.now draft) }
    ensures order { IfOk result (λ draft. KeepsOrder tree.now.root (ref_node draft.root)) }
{
    let old = tree.to_referenced()?;
    drafted(alloc, tree, old, chosen, how, content)
}

/// The same, where the document was read out of its slots.
pub(crate) fn drafted(
    alloc: Global,
    tree: &DocTree,
    old: RefTree,
    chosen: &NodeRefs,
    how: Option<How>,
    content: &Kids,
) -> Result<Draft, Memory>
    requires same { ref_node old ≡ tree.now.root }
    requires root { root_stays chosen.now how tree.now.root ≡ true }
    requires few_nodes { node_count (plain tree.now.root) + nodes_count (nodes (map view.node content.now)) < 2 ^ 31 }
    requires once { (nat_le (length chosen.now) 1 || is_empty content.now) ≡ true }
    ensures drafted { IfOk result (λ draft. IsDrafted (act_on chosen.now how) (nodes (map view.node content.now)) tree.now draft) }
    ensures order { IfOk result (λ draft. KeepsOrder tree.now.root (ref_node draft.root)) }
{
    let count = count_all(content.as_slice());
    let slots = tree.slot_count().max(tree.node_count() + count);
    let root = edited_root(alloc, tree, old, chosen, how, content, count)?;
    let size = size_of(&root);
    Ok(Draft { root, slots, size })
}

/// The root of the document after the edit, where the content has so many nodes.
fn edited_root(
    alloc: Global,
    tree: &DocTree,
    old: RefTree,
    chosen: &NodeRefs,
    how: Option<How>,
    content: &Kids,
    count: usize,
) -> Result<RefTree, Memory>
    requires same { ref_node old ≡ tree.now.root }
    requires root { root_stays chosen.now how tree.now.root ≡ true }
    requires counted { count ≡ nodes_count (nodes (map view.node content.now)) }
    requires few_nodes { node_count (plain tree.now.root) + count < 2 ^ 31 }
    requires once { (nat_le (length chosen.now) 1 || is_empty content.now) ≡ true }
    ensures { IfOk result (λ new. IsDraftOf (act_on chosen.now how) (nodes (map view.node content.now)) tree.now (ref_node new)
        (max tree.now.slots (node_count (plain tree.now.root) + count))) }
{
    // The root has the number 0, and its references lie below the slots.
    let _root = tree.root();
    let Ok(marks) = marks_of(alloc, tree.slot_count(), chosen) else {
        drop(old);
        return Err(Memory);
    };
    let Ok(refs) = tree.spare_references(count) else {
        drop(old);
        return Err(Memory);
    };
    let edit = Edit {
        marks: &marks,
        how,
        content,
        refs: &refs,
    };
    let mut list = edit_root(alloc, &edit, old)?;
    match list.pop() {
        Some(root) => Ok(root),
        // One element stands where the root stood.
        None => unreachable!(),
    }
}

/// How many nodes there are, with all that is below them.
fn count_all(trees: &[Tree]) -> usize
    requires { nodes_count (nodes (map view.node trees.now)) < 2 ^ 31 }
    ensures { result ≡ nodes_count (nodes (map view.node trees.now)) }
{
    let mut count = 0;
    for tree in trees {
        count += count_nodes(tree);
    }
    count
}
