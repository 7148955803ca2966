//! Content that gets references.

ghost use Rattle.std.specs.Prelude.{◌≡◌, ◌+◌, ◌≤◌, drop, length, map, IfOk, OnOk};
ghost use Rattle.doc_grammar.specs.Limits.{node_count, nodes_count};
ghost use Rattle.ordered_tree.specs.RefView.{ref_node, ref_nodes};
ghost use Rattle.plain_tree.specs.Document.{nodes};
ghost use Rattle.plain_tree.specs.View.{node};
ghost use Rattle.tree_edits.specs.Fresh.{all_fresh, fresh};

use ft_base::{Line, Memory};
use ordered_tree::{NodeRef, RefKids, RefTree, SharedAttrs, SharedName, SharedText};
use plain_tree::{Attrs, Tree, copy_attrs};
use std::alloc::Global;

/// A copy of the content, whose nodes get these references in document order.
pub(crate) fn with_references(
    alloc: Global,
    content: &[Tree],
    refs: &[NodeRef],
) -> Result<RefKids, Memory>
    requires { nodes_count (nodes (map node content.now)) ≤ length refs.now }
    ensures { IfOk result (λ kids. ref_nodes (map ref_node kids) ≡ all_fresh refs.now (nodes (map node content.now))) }
{
    let mut next = 0;
    fresh_all(alloc, content, refs, &mut next)
}

/// A copy of a node, whose references begin with that of the number `next`.
#[cycle(refreshing)]
fn fresh_tree(
    alloc: Global,
    tree: &Tree,
    refs: &[NodeRef],
    next: &mut usize,
) -> Result<RefTree, Memory>
    requires { next.old + node_count (node tree.now) ≤ length refs.now }
    ensures tree { IfOk result (λ made. ref_node made ≡ fresh (drop next.old refs.now) (node tree.now)) }
    ensures next { OnOk result (next.new ≡ next.old + node_count (node tree.now)) }
{
    let own = refs[*next];
    *next += 1;
    match tree {
        Tree::Text { text } => Ok(RefTree::Text {
            node: own,
            text: copy_text(alloc, text.as_str())?,
        }),
        Tree::Elem { name, attrs, kids } => Ok(RefTree::Element {
            node: own,
            name: copy_name(alloc, name.as_str())?,
            attrs: copy_attributes(alloc, attrs)?,
            kids: fresh_all(alloc, kids.as_slice(), refs, next)?,
        }),
    }
}

/// A copy of nodes, whose references begin with that of the number `next`.
#[cycle(refreshing)]
fn fresh_all(
    alloc: Global,
    trees: &[Tree],
    refs: &[NodeRef],
    next: &mut usize,
) -> Result<RefKids, Memory>
    requires { next.old + nodes_count (nodes (map node trees.now)) ≤ length refs.now }
    ensures kids { IfOk result (λ kids. ref_nodes (map ref_node kids) ≡ all_fresh (drop next.old refs.now) (nodes (map node trees.now))) }
    ensures next { OnOk result (next.new ≡ next.old + nodes_count (nodes (map node trees.now))) }
{
    let mut kids = RefKids::new(alloc);
    for tree in trees {
        kids.push(fresh_tree(alloc, tree, refs, next)?)?;
    }
    Ok(kids)
}

/// A copy of a text.
fn copy_text(alloc: Global, text: &str) -> Result<SharedText, Memory>
    ensures { IfOk result (λ made. made ≡ text.now) }
{
    let copy = Line::read(alloc, text)?;
    SharedText::new(alloc, copy)
}

/// A copy of a name.
fn copy_name(alloc: Global, name: &str) -> Result<SharedName, Memory>
    ensures { IfOk result (λ made. made ≡ name.now) }
{
    let copy = Line::read(alloc, name)?;
    SharedName::new(alloc, copy)
}

/// A copy of attributes.
fn copy_attributes(alloc: Global, attrs: &Attrs) -> Result<SharedAttrs, Memory>
    ensures { IfOk result (λ made. made ≡ attrs.now) }
{
    let copy = copy_attrs(alloc, attrs)?;
    SharedAttrs::new(alloc, copy)
}
