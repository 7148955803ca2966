ghost use Rattle.std.specs.Prelude.{◌≡◌, All, AllPairs, IfOk, flat_map, length, map};
ghost use Rattle.path_meaning.specs.Order.{Before};
ghost use Rattle.path_nodes.specs.steps.Members.{AreAmong, HaveSame};
ghost use Rattle.path_nodes.specs.References.{IsElement, element_of};
ghost use Rattle.path_nodes.specs.steps.Regions.{at_or_below};
ghost use Rattle.path_nodes.specs.steps.Within.{Precedes, is_prefix, stands_below_last};

use crate::Nodes;
use crate::kept::push_if;
use ft_base::Memory;
use ordered_tree::{DocTree, NodeRef};
use std::alloc::Global;

/// Those of elements in document order that stand below no other one of them.
pub(crate) fn outermost(alloc: Global, tree: &DocTree, contexts: &Nodes) -> Result<Nodes, Memory>
    requires contexts { All (IsElement tree.now.root) contexts.now }
    requires ordered { AllPairs Before (map (element_of tree.now.root) contexts.now) }
    ensures apart { IfOk result (λ outer. AllPairs Precedes (map (element_of tree.now.root) outer)) }
    ensures members { IfOk result (λ outer. HaveSame
        (flat_map at_or_below (map (element_of tree.now.root) outer)) (flat_map at_or_below (map (element_of tree.now.root) contexts.now))) }
    ensures once { IfOk result (λ outer. AreAmong
        (flat_map at_or_below (map (element_of tree.now.root) outer)) (flat_map at_or_below (map (element_of tree.now.root) contexts.now))) }
    ensures whole { IfOk result (λ outer. length outer ≡ length contexts.now → outer ≡ contexts.now) }
    ensures there { IfOk result (All (IsElement tree.now.root)) }
{
    let mut outer = Nodes::new(alloc);
    for context in contexts.as_slice() {
        let covered = is_below_last(tree, &outer, *context);
        push_if(!covered, *context, &mut outer)?;
    }
    Ok(outer)
}

/// Whether an element stands at or below the last one of a list.
fn is_below_last(tree: &DocTree, outer: &Nodes, node: NodeRef) -> bool
    requires outer { All (IsElement tree.now.root) outer.now }
    requires node { IsElement tree.now.root node }
    ensures { result ≡ stands_below_last (map (element_of tree.now.root) outer.now) (element_of tree.now.root node) }
{
    if outer.is_empty() {
        return false;
    }
    is_at_or_below(tree, *outer.get(outer.len() - 1), node)
}

/// Whether an element stands at or below another one.
fn is_at_or_below(tree: &DocTree, base: NodeRef, node: NodeRef) -> bool
    requires base { IsElement tree.now.root base }
    requires node { IsElement tree.now.root node }
    ensures { result ≡ is_prefix (element_of tree.now.root base).place (element_of tree.now.root node).place }
{
    if node.0 == base.0 {
        return true;
    }
    match tree.parent(node) {
        Some(parent) => is_at_or_below(tree, base, parent),
        None => false,
    }
}
