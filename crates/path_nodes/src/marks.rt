ghost use Rattle.std.specs.Prelude.{◌≡◌, ◌≢◌, ◌||◌, ◌==◌, [], true, All, map, OnOk};
ghost use Rattle.std.specs.List.{list_any};
ghost use Rattle.ft_base.specs.declared.ids.NodeRef.{NodeRef};
ghost use Rattle.path_meaning.specs.Elements.{is_same};
ghost use Rattle.path_nodes.specs.steps.Marks.{is_marked};
ghost use Rattle.path_nodes.specs.References.{IsElement, element_of};
ghost use Rattle.path_nodes.specs.steps.Ways.{AreWays};

use crate::Nodes;
use ft_base::Memory;
use ordered_tree::{DocTree, NodeRef};
use std::collections::HashSet;

/// The numbers of marked nodes.
pub(crate) type Marks = HashSet<u32>;

/// Marks a node.
fn mark(marks: &mut Marks, node: NodeRef) -> Result<(), Memory>
    ensures { OnOk result ((r : NodeRef) → is_marked marks.new r ≡ ((r.0 == node.0) || is_marked marks.old r)) }
{
    marks.insert(node.0)?;
    Ok(())
}

/// Whether a node is marked.
pub(crate) fn has_mark(marks: &Marks, node: NodeRef) -> bool
    ensures { result ≡ is_marked marks.now node }
{
    marks.contains(&node.0)
}

/// Marks the elements of a list.
pub(crate) fn mark_all(tree: &DocTree, marks: &mut Marks, nodes: &Nodes) -> Result<(), Memory>
    requires { All (IsElement tree.now.root) nodes.now }
    ensures { OnOk result ((r : NodeRef) → IsElement tree.now.root r
        → is_marked marks.new r ≡ (list_any (is_same (element_of tree.now.root r)) (map (element_of tree.now.root) nodes.now) || is_marked marks.old r)) }
{
    for node in nodes.as_slice() {
        mark(marks, *node)?;
    }
    Ok(())
}

/// Marks the elements that were kept of the children of an element, and the way to them.
pub(crate) fn mark_kept(
    tree: &DocTree,
    parent: NodeRef,
    kept: &Nodes,
    marks: &mut Marks,
    ways: &mut Marks,
) -> Result<(), Memory>
    requires parent { IsElement tree.now.root parent }
    requires kept { All (IsElement tree.now.root) kept.now }
    requires ways { AreWays tree.now.root ways.old }
    ensures marks { OnOk result ((r : NodeRef) → IsElement tree.now.root r
        → is_marked marks.new r ≡ (list_any (is_same (element_of tree.now.root r)) (map (element_of tree.now.root) kept.now) || is_marked marks.old r)) }
    ensures ways { OnOk result (AreWays tree.now.root ways.new) }
    ensures more { OnOk result ((r : NodeRef) → is_marked ways.old r ≡ true → is_marked ways.new r ≡ true) }
    ensures there { OnOk result ((kept.now ≢ []) → is_marked ways.new parent ≡ true) }
{
    mark_all(tree, marks, kept)?;
    mark_way_to(tree, ways, parent, kept)
}

/// Marks the elements of a list, and the way to them.
pub(crate) fn mark_found(
    tree: &DocTree,
    found: &Nodes,
    marks: &mut Marks,
    ways: &mut Marks,
) -> Result<(), Memory>
    requires found { All (IsElement tree.now.root) found.now }
    requires ways { AreWays tree.now.root ways.old }
    ensures marks { OnOk result ((r : NodeRef) → IsElement tree.now.root r
        → is_marked marks.new r ≡ (list_any (is_same (element_of tree.now.root r)) (map (element_of tree.now.root) found.now) || is_marked marks.old r)) }
    ensures ways { OnOk result (AreWays tree.now.root ways.new) }
    ensures more { OnOk result ((r : NodeRef) → is_marked ways.old r ≡ true → is_marked ways.new r ≡ true) }
    ensures there { OnOk result (All (λ r. is_marked ways.new r ≡ true) found.now) }
{
    mark_all(tree, marks, found)?;
    mark_ways(tree, ways, found)
}

/// Marks elements and all elements above them.
fn mark_ways(tree: &DocTree, ways: &mut Marks, nodes: &Nodes) -> Result<(), Memory>
    requires nodes { All (IsElement tree.now.root) nodes.now }
    requires ways { AreWays tree.now.root ways.old }
    ensures ways { OnOk result (AreWays tree.now.root ways.new) }
    ensures more { OnOk result ((r : NodeRef) → is_marked ways.old r ≡ true → is_marked ways.new r ≡ true) }
    ensures there { OnOk result (All (λ r. is_marked ways.new r ≡ true) nodes.now) }
{
    for node in nodes.as_slice() {
        mark_way(tree, ways, *node)?;
    }
    Ok(())
}

/// Marks an element, of whose children some were kept, and all elements above it.
fn mark_way_to(
    tree: &DocTree,
    ways: &mut Marks,
    parent: NodeRef,
    kept: &Nodes,
) -> Result<(), Memory>
    requires parent { IsElement tree.now.root parent }
    requires ways { AreWays tree.now.root ways.old }
    ensures ways { OnOk result (AreWays tree.now.root ways.new) }
    ensures more { OnOk result ((r : NodeRef) → is_marked ways.old r ≡ true → is_marked ways.new r ≡ true) }
    ensures there { OnOk result ((kept.now ≢ []) → is_marked ways.new parent ≡ true) }
{
    if kept.is_empty() {
        return Ok(());
    }
    mark_way(tree, ways, parent)?;
    Ok(())
}

/// Marks an element and all elements above it; those above a marked one are marked already.
fn mark_way(tree: &DocTree, ways: &mut Marks, node: NodeRef) -> Result<(), Memory>
    requires node { IsElement tree.now.root node }
    requires ways { AreWays tree.now.root ways.old }
    ensures ways { OnOk result (AreWays tree.now.root ways.new) }
    ensures more { OnOk result ((r : NodeRef) → is_marked ways.old r ≡ true → is_marked ways.new r ≡ true) }
    ensures there { OnOk result (is_marked ways.new node ≡ true) }
{
    if has_mark(ways, node) {
        return Ok(());
    }
    match tree.parent(node) {
        Some(parent) => {
            mark_way(tree, ways, parent)?;
            mark(ways, node)?;
            Ok(())
        }
        None => {
            mark(ways, node)?;
            Ok(())
        }
    }
}
