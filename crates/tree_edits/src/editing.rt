//! Edits of documents with references, in one walk that moves what stays.

ghost use Rattle.std.specs.Prelude.{◌≡◌, map, true, IfOk, OnOk};
ghost use Rattle.ordered_tree.specs.Numbered.{plain_children};
ghost use Rattle.ordered_tree.specs.RefView.{ref_node, ref_nodes};
ghost use Rattle.plain_tree.specs.Document.{are_joined};
ghost use Rattle.tree_edits.specs.Edits.{append, inserted, joined, with_children};
ghost use Rattle.tree_edits.specs.Acts.{act};
ghost use Rattle.tree_edits.specs.steps.Editing.{all_edited, content_of, edited};

use crate::edit::Edit;
use crate::fresh::with_references;
use crate::joining::{are_one_text, join_all, join_tree};
use crate::marks::is_marked;
use ft_base::Memory;
use ordered_tree::{RefKids, RefTree};
use plain_tree::How;
use std::alloc::Global;

/// What stands where the root stood, after the edit.
pub(crate) fn edit_root(
    alloc: Global,
    edit: &Edit<'_>,
    root: RefTree,
) -> Result<Vec<RefTree>, Memory>
    ensures { IfOk result (λ list. ref_nodes (map ref_node list.items)
        ≡ joined (edited edit.now (ref_node root))) }
{
    let mut list = Vec::new(alloc);
    edit_tree(alloc, edit, root, &mut list)?;
    Ok(list)
}

/// Puts what stands where a node stood, after the edit, to the end of nodes that are joined already, and joins its texts.
#[cycle(editing)]
fn edit_tree(
    alloc: Global,
    edit: &Edit<'_>,
    tree: RefTree,
    list: &mut Vec<RefTree>,
) -> Result<(), Memory>
    ensures { OnOk result (are_joined (plain_children (ref_nodes (map ref_node list.old.items))) ≡ true
        → ref_nodes (map ref_node list.new.items) ≡ joined (append (ref_nodes (map ref_node list.old.items))
        (edited edit.now (ref_node tree)))) }
{
    match tree {
        RefTree::Text { node, text } => join_tree(alloc, list, RefTree::Text { node, text }),
        RefTree::Element {
            node,
            name,
            attrs,
            kids,
        } => {
            if is_marked(edit.marks, node) {
                return apply(
                    alloc,
                    edit,
                    RefTree::Element {
                        node,
                        name,
                        attrs,
                        kids,
                    },
                    list,
                );
            }
            if are_one_text(kids.as_slice()) {
                list.push(RefTree::Element {
                    node,
                    name,
                    attrs,
                    kids,
                })?;
                return Ok(());
            }
            let mut inner = Vec::new(alloc);
            edit_all(alloc, edit, kids, &mut inner)?;
            list.push(RefTree::Element {
                node,
                name,
                attrs,
                kids: RefKids::from_vec(inner),
            })?;
            Ok(())
        }
    }
}

/// The same for children.
#[cycle(editing)]
fn edit_all(
    alloc: Global,
    edit: &Edit<'_>,
    kids: RefKids,
    list: &mut Vec<RefTree>,
) -> Result<(), Memory>
    ensures { OnOk result (are_joined (plain_children (ref_nodes (map ref_node list.old.items))) ≡ true
        → ref_nodes (map ref_node list.new.items) ≡ joined (append (ref_nodes (map ref_node list.old.items))
        (all_edited edit.now (ref_nodes (map ref_node kids))))) }
{
    for kid in kids.into_vec() {
        edit_tree(alloc, edit, kid, list)?;
    }
    Ok(())
}

/// Puts what stands where an element stood that was chosen to the end.
fn apply(
    alloc: Global,
    edit: &Edit<'_>,
    tree: RefTree,
    list: &mut Vec<RefTree>,
) -> Result<(), Memory>
    ensures { OnOk result (are_joined (plain_children (ref_nodes (map ref_node list.old.items))) ≡ true
        → ref_nodes (map ref_node list.new.items) ≡ joined (append (ref_nodes (map ref_node list.old.items))
        (act edit.now.how (content_of edit.now) (ref_node tree)))) }
{
    let content = with_references(alloc, edit.content.as_slice(), edit.refs.as_slice())?;
    match edit.how {
        None => {
            drop(tree);
            join_all(alloc, list, content)
        }
        Some(how) => put_in(alloc, how, tree, content, list),
    }
}

/// Puts an element, with content inserted into it or beside it, to the end.
fn put_in(
    alloc: Global,
    how: How,
    tree: RefTree,
    content: RefKids,
    list: &mut Vec<RefTree>,
) -> Result<(), Memory>
    ensures { OnOk result (are_joined (plain_children (ref_nodes (map ref_node list.old.items))) ≡ true
        → ref_nodes (map ref_node list.new.items) ≡ joined (append (ref_nodes (map ref_node list.old.items))
        (inserted how (ref_nodes (map ref_node content)) (ref_node tree)))) }
{
    match how {
        How::First => join_tree(alloc, list, with_first(tree, content)?),
        How::Last => join_tree(alloc, list, with_last(tree, content)?),
        How::Before => {
            join_all(alloc, list, content)?;
            join_tree(alloc, list, tree)
        }
        How::After => {
            join_tree(alloc, list, tree)?;
            join_all(alloc, list, content)
        }
    }
}

/// The element with content before its children.
fn with_first(tree: RefTree, content: RefKids) -> Result<RefTree, Memory>
    ensures { IfOk result (λ made. ref_node made ≡ with_children (append (ref_nodes (map ref_node content))) (ref_node tree)) }
{
    match tree {
        RefTree::Text { node, text } => {
            drop(content);
            Ok(RefTree::Text { node, text })
        }
        RefTree::Element {
            node,
            name,
            attrs,
            kids,
        } => {
            let mut all = content;
            all.append(kids)?;
            Ok(RefTree::Element {
                node,
                name,
                attrs,
                kids: all,
            })
        }
    }
}

/// The element with content after its children.
fn with_last(tree: RefTree, content: RefKids) -> Result<RefTree, Memory>
    ensures { IfOk result (λ made. ref_node made ≡ with_children (λ kids. append kids (ref_nodes (map ref_node content))) (ref_node tree)) }
{
    match tree {
        RefTree::Text { node, text } => {
            drop(content);
            Ok(RefTree::Text { node, text })
        }
        RefTree::Element {
            node,
            name,
            attrs,
            kids,
        } => {
            let mut all = kids;
            all.append(content)?;
            Ok(RefTree::Element {
                node,
                name,
                attrs,
                kids: all,
            })
        }
    }
}
