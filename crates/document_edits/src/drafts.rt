//! One document's edit: the document that it makes, before anything is changed, and how that is taken over.

ghost use Rattle.std.specs.Prelude.{◌≡◌, ◌≢◌, ◌≤◌, ◌<◌, ◌+◌, ◌^◌, ◌||◌, ℕ, All, IfOk, OnOk, length, map, nat_le, not, true};
ghost use Rattle.std.specs.List.{list_any};
ghost use Rattle.doc_grammar.specs.Limits.{node_count, nodes_count};
ghost use Rattle.ft_base.specs.Lists.{is_empty};
ghost use Rattle.index_meaning.specs.Documents as index;
ghost use Rattle.index_meaning.specs.Documents.{document_at, with_document};
ghost use Rattle.index_meaning.specs.Index.{index};
ghost use Rattle.index_updates.specs.Follows.{Follows, tree_document};
ghost use Rattle.ordered_tree.specs.Counts.{word_count};
ghost use Rattle.ordered_tree.specs.Numbered.{plain};
ghost use Rattle.ordered_tree.specs.RefView.{ref_node};
ghost use Rattle.path_nodes.specs.References.{IsElement};
ghost use Rattle.plain_tree.specs.Document.{nodes};
ghost use Rattle.plain_tree.specs.View as view;
ghost use Rattle.text_forms.specs.Forms.{key_of};
ghost use Rattle.tree_edits.specs.Changed.{KeepsOrder, touched};
ghost use Rattle.tree_edits.specs.Drafted.{IsDrafted};
ghost use Rattle.tree_edits.specs.Acts.{act_on, stays};
ghost use Rattle.document_edits.specs.Edited.{edited};
ghost use Rattle.document_edits.specs.Targets.{places_of, touched_by};

use ft_base::{DocId, Memory, Steps};
use index_updates::apply_change;
use index_versions::Version;
use ordered_tree::{DocTree, NodeRefs};
use plain_tree::{How, Kids};
use std::alloc::Global;
use std::sync::ledger::Ledger;
use tree_edits::{Draft, draft};
use word_lists::KeySet;

/// The document that an edit makes of a tree, whose elements are chosen by their references: content is inserted into each of
/// them or beside it, or, where it isn't said how, put in its place. The root stays an element, and only one element is chosen
/// where there is content. The tree is not changed.
pub fn draft_edit(
    alloc: Global,
    tree: &DocTree,
    chosen: &NodeRefs,
    how: Option<How>,
    content: &Kids,
) -> Result<Draft, Memory>
    requires there { All (IsElement tree.now.root) chosen.now }
    requires root { (stays how || not (list_any is_empty (places_of tree.now.root chosen.now))) ≡ true }
    requires once { (nat_le (length chosen.now) 1 || is_empty content.now) ≡ true }
    requires few_nodes { node_count (plain tree.now.root) + nodes_count (nodes (map view.node content.now)) < 2 ^ 31 }
    ensures plain { IfOk result (λ draft. plain (ref_node draft.root)
        ≡ edited how (nodes (map view.node content.now)) (places_of tree.now.root chosen.now) (plain tree.now.root)) }
    ensures drafted { IfOk result (λ draft. IsDrafted (act_on chosen.now how) (nodes (map view.node content.now)) tree.now draft) }
    ensures order { IfOk result (λ draft. KeepsOrder tree.now.root (ref_node draft.root)) }
    ensures words { IfOk result (λ draft. touched tree.now.root (ref_node draft.root)
        ≡ touched_by how (nodes (map view.node content.now)) (places_of tree.now.root chosen.now) (plain tree.now.root)) }
{
    // The root is an element, and no two nodes have one reference, as the clauses of `root` say.
    let _root = tree.root();
    draft(alloc, tree, chosen, how, content)
}

/// A document after an edit: its tree, and the version of the index with it.
#[derive(Drop)]
pub struct EditedDoc {
    pub tree: DocTree,
    pub version: Version,
}

/// The tree of a draft, and the version with it in the place of the document of before, of which it is a draft and which the
/// version follows under the abbreviations. Counts a row for each word of the texts that don't stay; where memory runs out, no
/// more than that.
pub fn apply_draft<L: Ledger>(
    alloc: Global,
    version: &Version,
    doc: DocId,
    old: &DocTree,
    draft: Draft,
    abbreviations: &KeySet,
    rows: &mut Steps<L>,
) -> Result<EditedDoc, Memory>
    requires follows { Follows abbreviations.now version.now doc.0 old.now.root }
    requires order { KeepsOrder old.now.root (ref_node draft.root) }
    requires few { word_count (plain (ref_node draft.root)) < 2 ^ 31 }
    ensures tree { IfOk result (λ made. made.tree ≡ record { root = ref_node draft.root; slots = draft.slots }) }
    ensures documents { IfOk result (λ made. made.version
        ≡ with_document (index.numbered doc.0 (tree_document abbreviations.now (ref_node draft.root))) version.now) }
    ensures index { IfOk result (λ made. index key_of made.version
        ≡ index key_of (with_document (index.numbered doc.0 (tree_document abbreviations.now (ref_node draft.root))) version.now)) }
    ensures follows { IfOk result (λ made. Follows abbreviations.now made.version doc.0 (ref_node draft.root)) }
    ensures others { IfOk result (λ made. (other : ℕ) → other ≢ doc.0 → document_at other made.version ≡ document_at other version.now) }
    ensures counted { OnOk result (rows.new ≡ rows.old + touched old.now.root (ref_node draft.root)) }
    ensures at_most { rows.new ≤ rows.old + touched old.now.root (ref_node draft.root) }
{
    let change = match draft.change(alloc, old) {
        Ok(change) => change,
        Err(memory) => {
            drop(draft);
            return Err(memory);
        }
    };
    let tree = match draft.into_tree(alloc, old) {
        Ok(tree) => tree,
        Err(memory) => {
            drop(change);
            return Err(memory);
        }
    };
    let changed = apply_change(version, doc, &tree, &change, abbreviations, rows);
    drop(change);
    match changed {
        Ok(version) => Ok(EditedDoc { tree, version }),
        Err(memory) => {
            drop(tree);
            Err(memory)
        }
    }
}
