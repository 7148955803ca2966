//! Edits of documents in slots, by the references of their elements.

ghost use Rattle.std.specs.Prelude.{◌≡◌, ◌+◌, ◌<◌, ◌^◌, ◌||◌, ◌∷◌, [], length, map, nat_le, true, false, Some, None, Err, IfOk, OnErr, OnOk};
ghost use Rattle.std.specs.List.{list_all};
ghost use Rattle.doc_grammar.specs.Limits.{node_count, nodes_count};
ghost use Rattle.ft_base.specs.Lists.{is_empty};
ghost use Rattle.ordered_tree.specs.Numbered.{plain, reference};
ghost use Rattle.ordered_tree.specs.RefView.{ref_node};
ghost use Rattle.plain_tree.specs.Document.{nodes, no_nodes};
ghost use Rattle.plain_tree.specs.View as view;
ghost use Rattle.tree_edits.specs.Changed.{KeepsOrder, Made};
ghost use Rattle.tree_edits.specs.Edited.{IsEdited};
ghost use Rattle.tree_edits.specs.Edits.{insertion, is_among, names_element, removal, replacement};
ghost use Rattle.tree_edits.specs.declared.trees.TreeFault.TheVariants.{NoSuchNode, RootTarget};
ghost use Rattle.tree_edits.specs.Acts.{act_on, root_stays, stays};

use crate::change::Change;
use crate::drafting::drafted;
use crate::drafts::Draft;
use crate::marks::name_elements;
use ft_base::Memory;
use ordered_tree::{DocTree, NodeRef, NodeRefs};
use plain_tree::{How, Kids};
use std::alloc::Global;

/// Why an edit was not made. The tree is then as it was.
#[derive(Clone, Copy)]
pub enum TreeFault {
    /// No element has the reference, or one of the references.
    NoSuchNode,
    /// The reference is the root's, or one of them is, and the edit needs siblings, as each does but an insertion before or after the
    /// children of an element.
    RootTarget,
    /// There was not enough memory.
    Memory,
}

impl From<Memory> for TreeFault {
    ghost use Rattle.std.specs.Prelude.{◌≡◌};
    ghost use Rattle.tree_edits.specs.declared.trees.TreeFault.TheVariants as Fault;

    ghost from_gives = { λ _ fault. fault ≡ Fault.Memory };

    fn from(_memory: Memory) -> TreeFault {
        TreeFault::Memory
    }
}

/// A document after an edit, and what the edit changed.
#[derive(Drop)]
struct Outcome {
    tree: DocTree,
    change: Change,
}

/// Inserts content before the children of an element, after them, before the element or after it (XQuery Update Facility
/// 1.0, 2.4.1). A text that comes beside a text is joined with it, under the reference of the first, and an empty one is dropped.
/// Nodes that stay keep their references. After a fault the tree is as it was.
pub fn insert(
    alloc: Global,
    tree: &mut DocTree,
    node: NodeRef,
    how: How,
    content: &Kids,
) -> Result<Change, TreeFault>
    requires { node_count (plain tree.old.root) + nodes_count (nodes (map view.node content.now)) < 2 ^ 31 }
    ensures edited { OnOk result (IsEdited (λ kids. insertion how kids node) (nodes (map view.node content.now)) tree.old tree.new) }
    ensures made { IfOk result (λ change. Made tree.old.root change tree.new.root) }
    ensures there { OnOk result (names_element node tree.old.root ≡ true) }
    ensures kept { OnErr result (tree.new ≡ tree.old) }
    ensures no_such_node { result ≡ Err NoSuchNode → names_element node tree.old.root ≡ false }
    ensures root_target { result ≡ Err RootTarget → node ≡ reference tree.old.root }
    ensures beside { result ≡ Err RootTarget → stays (Some how) ≡ false }
    ensures one_root { OnOk result (root_stays (node ∷ []) (Some how) tree.old.root ≡ true) }
{
    let done = changed_one(alloc, tree, node, Some(how), content)?;
    *tree = done.tree;
    Ok(done.change)
}

/// Puts content in the place of an element (XQuery Update Facility 1.0, 2.4.3), with texts joined as by `insert`.
pub fn replace(
    alloc: Global,
    tree: &mut DocTree,
    node: NodeRef,
    content: &Kids,
) -> Result<Change, TreeFault>
    requires { node_count (plain tree.old.root) + nodes_count (nodes (map view.node content.now)) < 2 ^ 31 }
    ensures edited { OnOk result (IsEdited (λ kids. replacement kids node) (nodes (map view.node content.now)) tree.old tree.new) }
    ensures made { IfOk result (λ change. Made tree.old.root change tree.new.root) }
    ensures there { OnOk result (names_element node tree.old.root ≡ true) }
    ensures kept { OnErr result (tree.new ≡ tree.old) }
    ensures no_such_node { result ≡ Err NoSuchNode → names_element node tree.old.root ≡ false }
    ensures root_target { result ≡ Err RootTarget → node ≡ reference tree.old.root }
    ensures one_root { OnOk result (root_stays (node ∷ []) None tree.old.root ≡ true) }
{
    let done = changed_one(alloc, tree, node, None, content)?;
    *tree = done.tree;
    Ok(done.change)
}

/// Removes elements with all that is below them (XQuery Update Facility 1.0, 2.4.2), with texts joined as by `insert`. One that is
/// below another of them goes with it.
pub fn remove(alloc: Global, tree: &mut DocTree, nodes: &NodeRefs) -> Result<Change, TreeFault>
    ensures edited { OnOk result (IsEdited (λ kids. removal nodes.now) no_nodes tree.old tree.new) }
    ensures made { IfOk result (λ change. Made tree.old.root change tree.new.root) }
    ensures there { OnOk result (list_all (λ node. names_element node tree.old.root) nodes.now ≡ true) }
    ensures kept { OnErr result (tree.new ≡ tree.old) }
    ensures no_such_node { result ≡ Err NoSuchNode → list_all (λ node. names_element node tree.old.root) nodes.now ≡ false }
    ensures root_target { result ≡ Err RootTarget → is_among nodes.now (reference tree.old.root) ≡ true }
    ensures one_root { OnOk result (root_stays nodes.now None tree.old.root ≡ true) }
{
    // The document has fewer than 2^31 nodes.
    let _count = tree.node_count();
    let done = changed(alloc, tree, nodes, None, &Kids::new(alloc))?;
    *tree = done.tree;
    Ok(done.change)
}

/// The document after the edit of one element.
fn changed_one(
    alloc: Global,
    tree: &DocTree,
    node: NodeRef,
    how: Option<How>,
    content: &Kids,
) -> Result<Outcome, TreeFault>
    requires { node_count (plain tree.now.root) + nodes_count (nodes (map view.node content.now)) < 2 ^ 31 }
    ensures edited { IfOk result (λ done. IsEdited (act_on (node ∷ []) how) (nodes (map view.node content.now)) tree.now done.tree) }
    ensures made { IfOk result (λ done. Made tree.now.root done.change done.tree.root) }
    ensures there { OnOk result (names_element node tree.now.root ≡ true) }
    ensures no_such_node { result ≡ Err NoSuchNode → names_element node tree.now.root ≡ false }
    ensures root_target { result ≡ Err RootTarget → node ≡ reference tree.now.root }
    ensures beside { result ≡ Err RootTarget → stays how ≡ false }
    ensures one_root { OnOk result (root_stays (node ∷ []) how tree.now.root ≡ true) }
{
    let chosen = NodeRefs::from_slice(alloc, &[node])?;
    changed(alloc, tree, &chosen, how, content)
}

/// The document after the edit of these elements.
fn changed(
    alloc: Global,
    tree: &DocTree,
    chosen: &NodeRefs,
    how: Option<How>,
    content: &Kids,
) -> Result<Outcome, TreeFault>
    requires few_nodes { node_count (plain tree.now.root) + nodes_count (nodes (map view.node content.now)) < 2 ^ 31 }
    requires once { (nat_le (length chosen.now) 1 || is_empty content.now) ≡ true }
    ensures edited { IfOk result (λ done. IsEdited (act_on chosen.now how) (nodes (map view.node content.now)) tree.now done.tree) }
    ensures made { IfOk result (λ done. Made tree.now.root done.change done.tree.root) }
    ensures there { OnOk result (list_all (λ node. names_element node tree.now.root) chosen.now ≡ true) }
    ensures no_such_node { result ≡ Err NoSuchNode → list_all (λ node. names_element node tree.now.root) chosen.now ≡ false }
    ensures root_target { result ≡ Err RootTarget → is_among chosen.now (reference tree.now.root) ≡ true }
    ensures beside { result ≡ Err RootTarget → stays how ≡ false }
    ensures one_root { OnOk result (root_stays chosen.now how tree.now.root ≡ true) }
{
    if !root_stays(tree, chosen, how) {
        return Err(TreeFault::RootTarget);
    }
    let old = tree.to_referenced()?;
    match name_elements(alloc, &old, tree.slot_count(), chosen) {
        Ok(true) => {}
        Ok(false) => {
            drop(old);
            return Err(TreeFault::NoSuchNode);
        }
        Err(Memory) => {
            drop(old);
            return Err(TreeFault::Memory);
        }
    }
    let draft = drafted(alloc, tree, old, chosen, how, content)?;
    match carried_out(alloc, tree, draft) {
        Ok(done) => Ok(done),
        Err(Memory) => Err(TreeFault::Memory),
    }
}

/// The document of a draft in slots, and what changed.
fn carried_out(alloc: Global, tree: &DocTree, draft: Draft) -> Result<Outcome, Memory>
    requires { KeepsOrder tree.now.root (ref_node draft.root) }
    ensures tree { IfOk result (λ done. done.tree ≡ record { root = ref_node draft.root; slots = draft.slots }) }
    ensures made { IfOk result (λ done. Made tree.now.root done.change (ref_node draft.root)) }
{
    let change = match draft.change(alloc, tree) {
        Ok(change) => change,
        Err(memory) => {
            drop(draft);
            return Err(memory);
        }
    };
    match draft.into_tree(alloc, tree) {
        Ok(tree) => Ok(Outcome { tree, change }),
        Err(memory) => {
            drop(change);
            Err(memory)
        }
    }
}

/// Whether one element stands where the root stands, after such an edit.
fn root_stays(tree: &DocTree, chosen: &NodeRefs, how: Option<How>) -> bool
    ensures stays { result ≡ root_stays chosen.now how tree.now.root }
    ensures chosen { result ≡ false → is_among chosen.now (reference tree.now.root) ≡ true }
    ensures beside { result ≡ false → stays how ≡ false }
{
    let root = tree.root();
    stays(how) || !is_among(chosen, root)
}

/// Whether an element that was chosen stays where it is.
fn stays(how: Option<How>) -> bool
    ensures { result ≡ stays how }
{
    match how {
        Some(How::First) | Some(How::Last) => true,
        Some(How::Before) | Some(How::After) | None => false,
    }
}

/// Whether the reference is among these.
fn is_among(refs: &NodeRefs, node: NodeRef) -> bool
    ensures { result ≡ is_among refs.now node }
{
    refs.as_slice().iter().any(|other| other.0 == node.0)
}
