ghost use Rattle.std.specs.Prelude.{◌≡◌, ◌≢◌, ◌≤◌, ◌<◌, ◌+◌, ◌^◌, ℕ, length, IfOk, OnOk};
ghost use Rattle.index_meaning.specs.Documents.{document_at, numbered, with_breaks, with_document};
ghost use Rattle.index_meaning.specs.Index.{index};
ghost use Rattle.ordered_tree.specs.Numbered.{Numbered};
ghost use Rattle.text_forms.specs.Forms.{key_of};
ghost use Rattle.tree_edits.specs.Changed.{Made, touched};
ghost use Rattle.index_updates.specs.Follows.{Follows, tree_document};
ghost use Rattle.index_updates.specs.steps.Turns.{AreNew, AreThere, Turned, with_all, without_all, words_put, words_taken};

use ft_base::{Breaks, DocId, LeafId, Memory, Steps};
use index_versions::Version;
use ordered_tree::{DocTree, LeafWords};
use std::sync::ledger::Ledger;
use tree_edits::Change;
use word_lists::KeySet;

/// The version with a document as it is after an edit, of which this is the tree and the change. The version follows the tree
/// of before under the same abbreviations. Counts a row for each word of the texts that don't stay; where memory runs out, no
/// more than that.
pub fn apply_change<L: Ledger>(
    version: &Version,
    doc: DocId,
    tree: &DocTree,
    change: &Change,
    abbreviations: &KeySet,
    rows: &mut Steps<L>,
) -> Result<Version, Memory>
    requires edited { (old : Numbered) × Follows abbreviations.now version.now doc.0 old × Made old change.now tree.now.root }
    ensures documents { IfOk result (λ new. new ≡ with_document (numbered doc.0 (tree_document abbreviations.now tree.now.root)) version.now) }
    ensures index { IfOk result (λ new. index key_of new ≡ index key_of (with_document (numbered doc.0 (tree_document abbreviations.now tree.now.root)) version.now)) }
    ensures follows { IfOk result (λ new. Follows abbreviations.now new doc.0 tree.now.root) }
    ensures others { IfOk result (λ new. (other : ℕ) → other ≢ doc.0 → document_at other new ≡ document_at other version.now) }
    ensures counted { OnOk result ((old : Numbered) → Follows abbreviations.now version.now doc.0 old → Made old change.now tree.now.root
        → rows.new ≡ rows.old + touched old tree.now.root) }
    ensures at_most { (old : Numbered) → Follows abbreviations.now version.now doc.0 old → Made old change.now tree.now.root
        → rows.new ≤ rows.old + touched old tree.now.root }
{
    let breaks = tree.breaks(abbreviations)?;
    let mut next = match version.clone_version() {
        Ok(next) => next,
        Err(memory) => {
            drop(breaks);
            return Err(memory);
        }
    };
    match change_document(&mut next, doc, change, breaks, rows) {
        Ok(()) => Ok(next),
        Err(memory) => {
            drop(next);
            Err(memory)
        }
    }
}

/// Changes the leaves of the document, and sets its breaks.
fn change_document<L: Ledger>(
    version: &mut Version,
    doc: DocId,
    change: &Change,
    breaks: Breaks,
    rows: &mut Steps<L>,
) -> Result<(), Memory>
    requires taken { AreThere change.now.taken (document_at doc.0 version.old) }
    requires put { AreNew change.now.put (without_all change.now.taken (document_at doc.0 version.old)) }
    ensures ok { OnOk result (version.new ≡ with_document
        (numbered doc.0 (with_breaks breaks (with_all change.now.put (without_all change.now.taken (document_at doc.0 version.old))))) version.old) }
    ensures counted { OnOk result (rows.new ≡ rows.old + (words_taken change.now.taken (document_at doc.0 version.old) + words_put change.now.put)) }
    ensures at_most { rows.new ≤ rows.old + (words_taken change.now.taken (document_at doc.0 version.old) + words_put change.now.put) }
{
    match change_leaves(version, doc, change, rows) {
        Ok(()) => version.set_breaks(doc, breaks),
        Err(memory) => {
            drop(breaks);
            Err(memory)
        }
    }
}

/// Takes the leaves that went, then puts those that came.
fn change_leaves<L: Ledger>(
    version: &mut Version,
    doc: DocId,
    change: &Change,
    rows: &mut Steps<L>,
) -> Result<(), Memory>
    requires taken { AreThere change.now.taken (document_at doc.0 version.old) }
    requires put { AreNew change.now.put (without_all change.now.taken (document_at doc.0 version.old)) }
    ensures turned { OnOk result
        (Turned version.old doc.0 (with_all change.now.put (without_all change.now.taken (document_at doc.0 version.old))) version.new) }
    ensures counted { OnOk result (rows.new ≡ rows.old + (words_taken change.now.taken (document_at doc.0 version.old) + words_put change.now.put)) }
    ensures at_most { rows.new ≤ rows.old + (words_taken change.now.taken (document_at doc.0 version.old) + words_put change.now.put) }
{
    take_leaves(version, doc, change.taken.as_slice(), rows)?;
    put_leaves(version, doc, change.put.as_slice(), rows)
}

/// Takes leaves out of the document, one after the other.
fn take_leaves<L: Ledger>(
    version: &mut Version,
    doc: DocId,
    taken: &[LeafId],
    rows: &mut Steps<L>,
) -> Result<(), Memory>
    requires { AreThere taken.now (document_at doc.0 version.old) }
    ensures turned { OnOk result (Turned version.old doc.0 (without_all taken.now (document_at doc.0 version.old)) version.new) }
    ensures counted { OnOk result (rows.new ≡ rows.old + words_taken taken.now (document_at doc.0 version.old)) }
    ensures at_most { rows.new ≤ rows.old + words_taken taken.now (document_at doc.0 version.old) }
{
    for leaf in taken {
        version.take_leaf(doc, *leaf, rows)?;
    }
    Ok(())
}

/// Puts leaves into the document, one after the other, each after the one that it follows.
fn put_leaves<L: Ledger>(
    version: &mut Version,
    doc: DocId,
    put: &[LeafWords],
    rows: &mut Steps<L>,
) -> Result<(), Memory>
    requires { AreNew put.now (document_at doc.0 version.old) }
    ensures turned { OnOk result (Turned version.old doc.0 (with_all put.now (document_at doc.0 version.old)) version.new) }
    ensures counted { OnOk result (rows.new ≡ rows.old + words_put put.now) }
    ensures at_most { rows.new ≤ rows.old + words_put put.now }
{
    for leaf in put {
        version.put_leaf(doc, leaf.after, leaf.leaf, &leaf.words, rows)?;
    }
    Ok(())
}
