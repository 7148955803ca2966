ghost use Rattle.std.specs.Prelude.{◌≡◌, ◌≢◌, ◌≤◌, ◌<◌, ◌+◌, ◌^◌, ◌++◌, ◌∷◌, [], ℕ, false, true, IfOk, OnOk};
ghost use Rattle.index_document.specs.Terms.{are_distinct};
ghost use Rattle.index_meaning.specs.Documents.{document_at, document_of, has_document, leaf_ids, numbered, token_count, with_document};
ghost use Rattle.index_meaning.specs.Index.{index};
ghost use Rattle.ordered_tree.specs.Counts.{word_count};
ghost use Rattle.ordered_tree.specs.Numbered.{plain};
ghost use Rattle.text_forms.specs.Forms.{key_of};
ghost use Rattle.index_updates.specs.Follows.{AreOf, Follows, tree_document, word_leaf, word_leaves};

use ft_base::{Breaks, DocId, Memory, Steps};
use index_versions::{Version, WordHints, WordLeaf, WordLeaves};
use ordered_tree::{DocTree, LeafWords, Leaves};
use std::alloc::Global;
use std::sync::ledger::Ledger;
use word_lists::KeySet;

/// The version with the document of a tree more, under a number that it doesn't have and with its breaks under the abbreviations.
/// The hints may be of any version, and those of the new words are noted. Counts a row for each of the tree's tokens; where memory
/// runs out, no more than that.
pub fn add_doc<L: Ledger>(
    alloc: Global,
    version: &Version,
    hints: &mut WordHints,
    doc: DocId,
    tree: &DocTree,
    abbreviations: &KeySet,
    rows: &mut Steps<L>,
) -> Result<Version, Memory>
    requires absent { has_document doc.0 version.now ≡ false }
    ensures documents { IfOk result (λ new. new ≡ with_document (numbered doc.0 (tree_document abbreviations.now tree.now.root)) version.now) }
    ensures index { IfOk result (λ new. index key_of new ≡ index key_of (with_document (numbered doc.0 (tree_document abbreviations.now tree.now.root)) version.now)) }
    ensures follows { IfOk result (λ new. Follows abbreviations.now new doc.0 tree.now.root) }
    ensures others { IfOk result (λ new. (other : ℕ) → other ≢ doc.0 → document_at other new ≡ document_at other version.now) }
    ensures counted { OnOk result (rows.new ≡ rows.old + word_count (plain tree.now.root)) }
    ensures at_most { rows.new ≤ rows.old + word_count (plain tree.now.root) }
{
    let leaves = tree.all_leaves()?;
    match tree.breaks(abbreviations) {
        Ok(breaks) => {
            let found = Found { leaves, breaks };
            add_loaded(alloc, version, hints, doc, tree, abbreviations, found, rows)
        }
        Err(memory) => {
            drop(leaves);
            Err(memory)
        }
    }
}

/// What was found of a tree: its leaves with their words, and where its sentences and paragraphs start.
#[derive(Drop)]
pub struct Found {
    pub leaves: Leaves,
    pub breaks: Breaks,
}

/// The same where the leaves of the tree and its breaks under the abbreviations are known, as they are when it was just read.
pub fn add_loaded<L: Ledger>(
    alloc: Global,
    version: &Version,
    hints: &mut WordHints,
    doc: DocId,
    tree: &DocTree,
    abbreviations: &KeySet,
    found: Found,
    rows: &mut Steps<L>,
) -> Result<Version, Memory>
    requires absent { has_document doc.0 version.now ≡ false }
    requires found { AreOf abbreviations.now tree.now.root found.leaves found.breaks }
    ensures documents { IfOk result (λ new. new ≡ with_document (numbered doc.0 (tree_document abbreviations.now tree.now.root)) version.now) }
    ensures index { IfOk result (λ new. index key_of new ≡ index key_of (with_document (numbered doc.0 (tree_document abbreviations.now tree.now.root)) version.now)) }
    ensures follows { IfOk result (λ new. Follows abbreviations.now new doc.0 tree.now.root) }
    ensures others { IfOk result (λ new. (other : ℕ) → other ≢ doc.0 → document_at other new ≡ document_at other version.now) }
    ensures counted { OnOk result (rows.new ≡ rows.old + word_count (plain tree.now.root)) }
    ensures at_most { rows.new ≤ rows.old + word_count (plain tree.now.root) }
{
    // No two nodes have one reference, as the clauses of `root` say.
    let _root = tree.root();
    let Found { leaves, breaks } = found;
    let texts = match texts_of(alloc, leaves) {
        Ok(made) => made,
        Err(memory) => {
            drop(breaks);
            return Err(memory);
        }
    };
    let added = with_texts(version, hints, doc, &texts, breaks, rows);
    drop(texts);
    added
}

/// The version with a document of these leaves and breaks more.
fn with_texts<L: Ledger>(
    version: &Version,
    hints: &mut WordHints,
    doc: DocId,
    texts: &WordLeaves,
    breaks: Breaks,
    rows: &mut Steps<L>,
) -> Result<Version, Memory>
    requires absent { has_document doc.0 version.now ≡ false }
    requires distinct { are_distinct (leaf_ids texts.now) ≡ true }
    ensures documents { IfOk result (λ new. new ≡ with_document (numbered doc.0 (document_of texts.now breaks)) version.now) }
    ensures counted { OnOk result (rows.new ≡ rows.old + token_count (document_of texts.now breaks)) }
    ensures at_most { rows.new ≤ rows.old + token_count (document_of texts.now breaks) }
{
    let mut next = match version.clone_version() {
        Ok(next) => next,
        Err(memory) => {
            drop(breaks);
            return Err(memory);
        }
    };
    match next.put_document(doc, texts, breaks, hints, rows) {
        Ok(()) => Ok(next),
        Err(memory) => {
            drop(next);
            Err(memory)
        }
    }
}

/// The leaves of a tree as those that come into a version; no word is copied.
fn texts_of(alloc: Global, leaves: Leaves) -> Result<WordLeaves, Memory>
    ensures { IfOk result (λ texts. texts ≡ word_leaves leaves) }
{
    let mut texts = WordLeaves::new(alloc);
    for leaf in leaves.into_vec() {
        push_text(&mut texts, leaf)?;
    }
    Ok(texts)
}

/// Puts a leaf after the others.
fn push_text(texts: &mut WordLeaves, leaf: LeafWords) -> Result<(), Memory>
    ensures { OnOk result (texts.new ≡ texts.old ++ word_leaf leaf ∷ []) }
{
    let LeafWords { leaf, words, .. } = leaf;
    texts.push(WordLeaf::new(leaf, words))
}
