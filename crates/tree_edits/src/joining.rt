//! Texts that come beside each other are joined, and empty ones dropped.

ghost use Rattle.std.specs.Prelude.{◌≡◌, ◌<◌, ◌∷◌, ◌++◌, [], length, map, true, IfOk, IsTrue, OnOk};
ghost use Rattle.ordered_tree.specs.Numbered.{plain_children, text_at};
ghost use Rattle.ordered_tree.specs.RefView.{ref_node, ref_nodes};
ghost use Rattle.ordered_tree.specs.declared.ref_tree.RefTree.TheVariants.{Text};
ghost use Rattle.plain_tree.specs.Document.{are_joined};
ghost use Rattle.tree_edits.specs.Edits.{append, joined, only};
ghost use Rattle.tree_edits.specs.steps.Editing.{are_one_text};

use ft_base::{Line, Memory, NodeRef};
use ordered_tree::{RefKids, RefTree, SharedText};
use std::alloc::Global;

/// Puts nodes to the end of others that are joined already, and joins their texts. Where memory runs out, the others are given up.
#[cycle(joining)]
#[tactic(auto, using(crate::proofs::RowsJoined::ref_views))]
pub(crate) fn join_all(alloc: Global, list: &mut Vec<RefTree>, more: RefKids) -> Result<(), Memory>
    ensures { OnOk result (are_joined (plain_children (ref_nodes (map ref_node list.old.items))) ≡ true
        → ref_nodes (map ref_node list.new.items) ≡ joined (append (ref_nodes (map ref_node list.old.items)) (ref_nodes (map ref_node more)))) }
{
    for tree in more.into_vec() {
        join_tree(alloc, list, tree)?;
    }
    Ok(())
}

/// Puts a node to the end of others that are joined already, and joins their texts.
#[cycle(joining)]
#[tactic(auto, using(crate::proofs::RowsJoined::ref_views))]
pub(crate) fn join_tree(alloc: Global, list: &mut Vec<RefTree>, tree: RefTree) -> Result<(), Memory>
    ensures { OnOk result (are_joined (plain_children (ref_nodes (map ref_node list.old.items))) ≡ true
        → ref_nodes (map ref_node list.new.items) ≡ joined (append (ref_nodes (map ref_node list.old.items)) (only (ref_node tree)))) }
{
    match tree {
        RefTree::Text { node, text } => join_text(alloc, list, node, text),
        RefTree::Element {
            node,
            name,
            attrs,
            kids,
        } => {
            if are_one_text(kids.as_slice()) {
                list.push(RefTree::Element {
                    node,
                    name,
                    attrs,
                    kids,
                })?;
                return Ok(());
            }
            let mut joined = Vec::new(alloc);
            join_all(alloc, &mut joined, kids)?;
            list.push(RefTree::Element {
                node,
                name,
                attrs,
                kids: RefKids::from_vec(joined),
            })?;
            Ok(())
        }
    }
}

/// Whether the nodes are one text that isn't empty, as most are: no edit makes others of them, and they need no joining.
pub(crate) fn are_one_text(trees: &[RefTree]) -> bool
    ensures { IsTrue result → are_one_text (ref_nodes (map ref_node trees.now)) ≡ true }
{
    trees.len() == 1 && is_some_text(&trees[0])
}

/// Whether the node is a text that isn't empty.
#[tactic(auto, using(crate::proofs::RowsJoined::ref_views))]
fn is_some_text(tree: &RefTree) -> bool
    ensures { IsTrue result → are_one_text (only (ref_node tree.now)) ≡ true }
{
    match tree {
        RefTree::Text { text, .. } => !text.as_str().is_empty(),
        RefTree::Element { .. } => false,
    }
}

/// Puts a text to the end of nodes that are joined already, and joins it with a text that stands there, under the reference of that
/// one. Where memory runs out, the nodes are given up.
fn join_text(
    alloc: Global,
    list: &mut Vec<RefTree>,
    node: NodeRef,
    more: SharedText,
) -> Result<(), Memory>
    ensures { OnOk result (are_joined (plain_children (ref_nodes (map ref_node list.old.items))) ≡ true
        → ref_nodes (map ref_node list.new.items) ≡ joined (append (ref_nodes (map ref_node list.old.items)) (only (text_at node more)))) }
{
    if more.as_str().is_empty() {
        return Ok(());
    }
    match list.pop() {
        Some(last) => join_after(alloc, list, last, node, more),
        None => {
            push_text(list, node, more)?;
            Ok(())
        }
    }
}

/// Puts a node and a text after it to the end, as one text where the node is one.
fn join_after(
    alloc: Global,
    list: &mut Vec<RefTree>,
    last: RefTree,
    node: NodeRef,
    more: SharedText,
) -> Result<(), Memory>
    requires { 0 < length more }
    ensures { OnOk result (are_joined (plain_children (ref_nodes (map ref_node (list.old.items ++ last ∷ [])))) ≡ true
        → ref_nodes (map ref_node list.new.items) ≡ joined (append (ref_nodes (map ref_node (list.old.items ++ last ∷ []))) (only (text_at node more)))) }
{
    match last {
        RefTree::Text { node: first, text } => {
            push_text(list, first, one_text(alloc, &text, &more)?)?;
            Ok(())
        }
        RefTree::Element {
            node: element,
            name,
            attrs,
            kids,
        } => {
            list.push(RefTree::Element {
                node: element,
                name,
                attrs,
                kids,
            })?;
            push_text(list, node, more)?;
            Ok(())
        }
    }
}

/// The text with more after it.
fn one_text(alloc: Global, text: &SharedText, more: &SharedText) -> Result<SharedText, Memory>
    ensures { IfOk result (λ one. one ≡ text.now ++ more.now) }
{
    let mut bytes = String::from_str(alloc, text.as_str())?;
    bytes.push_str(more.as_str())?;
    SharedText::new(alloc, Line::from_string(bytes))
}

/// Puts a text to the end as it is.
fn push_text(list: &mut Vec<RefTree>, node: NodeRef, text: SharedText) -> Result<(), Memory>
    ensures { OnOk result (list.new.items ≡ list.old.items ++ Text node text ∷ []) }
{
    list.push(RefTree::Text { node, text })?;
    Ok(())
}
