//! What an edit makes of the documents, as drafts, before any of them is changed.

ghost use Rattle.std.specs.Prelude.{◌≡◌, ◌≤◌, ◌||◌, All, IfOk, length, map, nat_le, not, true};
ghost use Rattle.std.specs.List.{list_any, sum_by};
ghost use Rattle.doc_grammar.specs.Limits.{node_count};
ghost use Rattle.doc_profile.specs.Faults.{AreWithin};
ghost use Rattle.document_edits.specs.Targets.{places_of};
ghost use Rattle.ft_base.specs.Limits.{max_nodes};
ghost use Rattle.ft_base.specs.Lists.{is_empty};
ghost use Rattle.ordered_tree.specs.Numbered.{plain};
ghost use Rattle.path_nodes.specs.References.{IsElement};
ghost use Rattle.plain_tree.specs.Document.{nodes};
ghost use Rattle.plain_tree.specs.View.{node};
ghost use Rattle.tree_edits.specs.Acts.{stays};
ghost use Rattle.document_store.specs.Loaded.{trees_of};
ghost use Rattle.document_store.specs.Targets.{edit_of, places_of_targets, AreTargets};
ghost use Rattle.document_store.specs.steps.Planning.{ArePlanned, IsDraftOf};

use crate::documents::Documents;
use document_edits::{Draft, draft_edit};
use ft_base::Memory;
use ordered_tree::{DocTree, NodeRefs};
use plain_tree::{How, Kids};
use std::alloc::Global;

/// The draft of what an edit makes of a document, with the document's place among all, counted from 0.
#[derive(Drop)]
pub(crate) struct Planned {
    pub(crate) at: usize,
    pub(crate) draft: Draft,
}

/// The drafts of those documents of which the edit has elements, in their order. No other document is looked at.
pub(crate) fn plan_all(
    alloc: Global,
    documents: &Documents,
    targets: &[NodeRefs],
    how: Option<How>,
    content: &Kids,
) -> Result<Vec<Planned>, Memory>
    requires there { AreTargets (trees_of documents.now) targets.now }
    requires once { (nat_le (sum_by length targets.now) 1 || is_empty content.now) ≡ true }
    requires inner { (stays how || not (list_any (list_any is_empty) (places_of_targets (trees_of documents.now) targets.now))) ≡ true }
    requires few_nodes { AreWithin (nodes (map node content.now)) }
    ensures { IfOk result (λ planned. ArePlanned (edit_of how content.now) 0 documents.now targets.now planned.items) }
{
    let mut planned = Vec::new(alloc);
    for at in 0..documents.len() {
        let (_, document) = documents.entry(at);
        if let Some(draft) = draft_of(alloc, document.tree(), &targets[at], how, content)? {
            planned.push(Planned { at, draft })?;
        }
    }
    Ok(planned)
}

/// The draft of a document, if the edit is of some of its elements.
fn draft_of(
    alloc: Global,
    tree: &DocTree,
    chosen: &NodeRefs,
    how: Option<How>,
    content: &Kids,
) -> Result<Option<Draft>, Memory>
    requires there { All (IsElement tree.now.root) chosen.now }
    requires once { (nat_le (length chosen.now) 1 || is_empty content.now) ≡ true }
    requires inner { (stays how || not (list_any is_empty (places_of tree.now.root chosen.now))) ≡ true }
    requires few_nodes { AreWithin (nodes (map node content.now)) }
    requires within { node_count (plain tree.now.root) ≤ max_nodes }
    ensures { IfOk result (IsDraftOf (edit_of how content.now) tree.now.root chosen.now) }
{
    if chosen.is_empty() {
        return Ok(None);
    }
    match draft_edit(alloc, tree, chosen, how, content) {
        Ok(draft) => Ok(Some(draft)),
        Err(memory) => Err(memory),
    }
}
