//! Drafts of an edit, put in the place of the documents of which they are.

ghost use Rattle.std.specs.Prelude.{◌≡◌, ◌≤◌, ◌<◌, ◌+◌, ◌-◌, ◌∷◌, [], ℕ, List, None, map, length, IfOk, OnOk};
ghost use Rattle.ft_base.specs.declared.ids.NodeRef.{NodeRef};
ghost use Rattle.index_meaning.specs.Documents.{with_document};
ghost use Rattle.index_updates.specs.Follows.{Follows, under_tree};
ghost use Rattle.ordered_tree.specs.Counts.{word_count};
ghost use Rattle.ordered_tree.specs.Numbered.{plain};
ghost use Rattle.ordered_tree.specs.RefView.{ref_node};
ghost use Rattle.tree_edits.specs.Changed.{touched, KeepsOrder};
ghost use Rattle.document_store.specs.Documents.{edited_documents, limit_of, token_total, touched_in, Edit};
ghost use Rattle.document_store.specs.Loaded.{to_document, trees_of};
ghost use Rattle.document_store.specs.Targets.{places_of_targets};
ghost use Rattle.document_store.specs.steps.Numbering.{IsNumbered};
ghost use Rattle.document_store.specs.steps.Planning.{root_after, ArePlanned, IsPutAt};

use crate::documents::Documents;
use crate::loaded::Loaded;
use crate::planning::Planned;
use crate::tokens::token_count;
use document_edits::{Draft, EditedDoc, apply_draft};
use ft_base::{Memory, Steps};
use index_versions::Version;
use std::alloc::Global;
use std::sync::ledger::Ledger;
use word_lists::KeySet;

/// Documents with the version of the index that is theirs, and how many tokens they have.
#[derive(Drop)]
pub(crate) struct Edited {
    pub(crate) documents: Documents,
    pub(crate) version: Version,
    pub(crate) tokens: usize,
}

/// The documents after the edit for which drafts of them were planned, with their version under the abbreviations. None of the
/// drafts exceeds a limit. The documents that the edit leaves are shared.
pub(crate) fn apply_all<L: Ledger>(
    alloc: Global,
    documents: &Documents,
    version: &Version,
    tokens: usize,
    planned: Vec<Planned>,
    abbreviations: &KeySet,
    rows: &mut Steps<L>,
) -> Result<Edited, Memory>
    requires numbered { (next : ℕ) × IsNumbered abbreviations.now documents.now version.now next }
    requires counted { tokens ≡ token_total (map to_document documents.now) }
    requires plans { (edit : Edit) × ((targets : List (List NodeRef)) × ArePlanned edit 0 documents.now targets planned.items) }
    requires limits { limit_of (map root_after planned.items) ≡ None }
    ensures documents { IfOk result (λ made. (edit : Edit) → (targets : List (List NodeRef)) → ArePlanned edit 0 documents.now targets planned.items
        → map to_document made.documents
        ≡ edited_documents edit (places_of_targets (trees_of documents.now) targets) (map to_document documents.now)) }
    ensures numbered { IfOk result (λ made. (next : ℕ) → IsNumbered abbreviations.now documents.now version.now next → IsNumbered abbreviations.now made.documents made.version next) }
    ensures counted { IfOk result (λ made. made.tokens ≡ token_total (map to_document made.documents)) }
    ensures rows { (edit : Edit) → (targets : List (List NodeRef)) → ArePlanned edit 0 documents.now targets planned.items
        → rows.new ≤ rows.old + touched_in edit (places_of_targets (trees_of documents.now) targets) (map to_document documents.now) }
{
    let Ok(mut made) = share(documents, version, tokens) else {
        drop(planned);
        return Err(Memory);
    };
    match put_all(alloc, documents, &mut made, planned, abbreviations, rows) {
        Ok(()) => Ok(made),
        Err(memory) => {
            drop(made);
            Err(memory)
        }
    }
}

/// The same documents once more, before one of them is changed.
fn share(documents: &Documents, version: &Version, tokens: usize) -> Result<Edited, Memory>
    ensures documents { IfOk result (λ made. made.documents ≡ documents.now) }
    ensures version { IfOk result (λ made. made.version ≡ version.now) }
    ensures tokens { IfOk result (λ made. made.tokens ≡ tokens) }
{
    let documents = documents.share()?;
    match version.clone_version() {
        Ok(version) => Ok(Edited {
            documents,
            version,
            tokens,
        }),
        Err(memory) => {
            drop(documents);
            Err(memory)
        }
    }
}

/// Puts each draft in the place of its document.
fn put_all<L: Ledger>(
    alloc: Global,
    documents: &Documents,
    made: &mut Edited,
    planned: Vec<Planned>,
    abbreviations: &KeySet,
    rows: &mut Steps<L>,
) -> Result<(), Memory>
    requires same { made.old.documents ≡ documents.now }
    requires numbered { (next : ℕ) × IsNumbered abbreviations.now documents.now made.old.version next }
    requires counted { made.old.tokens ≡ token_total (map to_document documents.now) }
    requires plans { (edit : Edit) × ((targets : List (List NodeRef)) × ArePlanned edit 0 documents.now targets planned.items) }
    requires limits { limit_of (map root_after planned.items) ≡ None }
    ensures documents { OnOk result ((edit : Edit) → (targets : List (List NodeRef)) → ArePlanned edit 0 documents.now targets planned.items
        → map to_document made.new.documents
        ≡ edited_documents edit (places_of_targets (trees_of documents.now) targets) (map to_document documents.now)) }
    ensures numbered { OnOk result ((next : ℕ) → IsNumbered abbreviations.now documents.now made.old.version next → IsNumbered abbreviations.now made.new.documents made.new.version next) }
    ensures counted { OnOk result (made.new.tokens ≡ token_total (map to_document made.new.documents)) }
    ensures rows { (edit : Edit) → (targets : List (List NodeRef)) → ArePlanned edit 0 documents.now targets planned.items
        → rows.new ≤ rows.old + touched_in edit (places_of_targets (trees_of documents.now) targets) (map to_document documents.now) }
{
    for one in planned {
        let (_, document) = documents.entry(one.at);
        put(alloc, made, document, one, abbreviations, rows)?;
    }
    Ok(())
}

/// Puts the draft of a document in its place. Where the tokens are more than 64 bits count, no memory is found.
fn put<L: Ledger>(
    alloc: Global,
    made: &mut Edited,
    document: &Loaded,
    planned: Planned,
    abbreviations: &KeySet,
    rows: &mut Steps<L>,
) -> Result<(), Memory>
    requires there { planned.at < length made.old.documents }
    requires follows { Follows abbreviations.now made.old.version document.now.doc.0 document.now.tree.root }
    requires order { KeepsOrder document.now.tree.root (ref_node planned.draft.root) }
    requires limits { limit_of (root_after planned ∷ []) ≡ None }
    requires counted { word_count (plain document.now.tree.root) ≤ made.old.tokens }
    ensures documents { OnOk result (IsPutAt made.old.documents document.now.doc planned made.new.documents) }
    ensures version { OnOk result (made.new.version
        ≡ with_document (under_tree abbreviations.now (document.now.doc.0, ref_node planned.draft.root)) made.old.version) }
    ensures tokens { OnOk result (made.new.tokens
        ≡ made.old.tokens - word_count (plain document.now.tree.root) + word_count (root_after planned)) }
    ensures rows { rows.new ≤ rows.old + touched document.now.tree.root (ref_node planned.draft.root) }
{
    let Planned { at, draft } = planned;
    let others = made.tokens - token_count(document.tree());
    let edited = apply(
        alloc,
        &mut made.version,
        document,
        draft,
        abbreviations,
        rows,
    )?;
    match others.checked_add(token_count(edited.tree())) {
        Some(tokens) => {
            made.tokens = tokens;
            made.documents.replace(at, edited)
        }
        None => {
            drop(edited);
            Err(Memory)
        }
    }
}

/// A document with its draft in its place, in the version too.
fn apply<L: Ledger>(
    alloc: Global,
    version: &mut Version,
    document: &Loaded,
    draft: Draft,
    abbreviations: &KeySet,
    rows: &mut Steps<L>,
) -> Result<Loaded, Memory>
    requires follows { Follows abbreviations.now version.old document.now.doc.0 document.now.tree.root }
    requires plan { KeepsOrder document.now.tree.root (ref_node draft.root) }
    requires limits { limit_of (plain (ref_node draft.root) ∷ []) ≡ None }
    ensures document { IfOk result (λ made. made.doc ≡ document.now.doc) }
    ensures tree { IfOk result (λ made. made.tree.root ≡ ref_node draft.root) }
    ensures version { OnOk result (version.new ≡ with_document (under_tree abbreviations.now (document.now.doc.0, ref_node draft.root)) version.old) }
    ensures rows { rows.new ≤ rows.old + touched document.now.tree.root (ref_node draft.root) }
{
    let doc = document.doc();
    let EditedDoc {
        tree,
        version: next,
    } = apply_draft(
        alloc,
        version,
        doc,
        document.tree(),
        draft,
        abbreviations,
        rows,
    )?;
    match Loaded::new(alloc, doc, tree) {
        Ok(made) => {
            drop(std::mem::replace(version, next));
            Ok(made)
        }
        Err(memory) => {
            drop(next);
            Err(memory)
        }
    }
}
