//! Leaves that come into a document of a version or go out of it, one by one or all at once.
ghost use Rattle.std.specs.Prelude.{◌≡◌, ◌≤◌, ◌+◌, ◌==◌, [], false, not, true, filter, length, map, IfOk, IfSome, OnErr, OnOk};
ghost use Rattle.index_meaning.specs.Documents.{leaf_of, document_of, numbered, leaf_ids, leaf_words, has_leaf, token_count};
ghost use Rattle.index_meaning.specs.Documents.{with_leaf, without_leaf, with_breaks, has_document, document_at, with_document, without_document};
ghost use Rattle.index_document.specs.Terms as by_id;
ghost use Rattle.index_document.specs.Terms.{are_distinct, has};
ghost use Rattle.index_versions.specs.steps.Held.{ids_of_leaf, leaf_under, place_following};
ghost use Rattle.index_versions.specs.steps.Naming.{all_words, entries_of, IsNamed};
ghost use Rattle.index_versions.specs.steps.Sound.{IsSound, meaning};

use crate::WordLeaves;
use crate::changes::change;
use crate::documents::{document, document_or_new};
use crate::exchange::exchange;
use crate::held::HeldDocument;
use crate::hints::WordHints;
use crate::parts::Parts;
use crate::words::{name_leaves, name_words};
use ft_base::{Breaks, DocId, LeafId, Memory, Steps};
use index_document::DocIndex;
use std::alloc::Global;
use std::sync::ledger::Ledger;
use text_list::TextList;

/// Puts a leaf with these words into the document, directly after another leaf or before all.
pub(crate) fn put_leaf<L: Ledger>(
    alloc: Global,
    parts: &mut Parts,
    doc: DocId,
    after: Option<LeafId>,
    leaf: LeafId,
    words: &TextList,
    rows: &mut Steps<L>,
) -> Result<(), Memory>
    requires sound { IsSound parts.old }
    requires new { has_leaf leaf.0 (document_at doc.0 (meaning parts.old)) ≡ false }
    requires after { IfSome after (λ other. has_leaf other.0 (document_at doc.0 (meaning parts.old)) ≡ true) }
    ensures sound { OnOk result (IsSound parts.new) }
    ensures meaning { OnOk result (meaning parts.new ≡
        with_document (numbered doc.0 (with_leaf after (leaf_of leaf.0 words.now) (document_at doc.0 (meaning parts.old)))) (meaning parts.old)) }
    ensures counted { OnOk result (rows.new ≡ rows.old + length words.now) }
    ensures at_most { rows.new ≤ rows.old + length words.now }
{
    let ids = name_words(alloc, &mut parts.dictionary, &parts.counts, words)?;
    let held = document_or_new(alloc, &parts.documents, doc)?;
    let index = index_with_leaf(held.index(), after, leaf, ids, rows)?;
    let next = held.with_index(alloc, index)?;
    change(alloc, parts, doc, Some(next))?;
    Ok(())
}

/// The index of the document with that leaf.
fn index_with_leaf<L: Ledger>(
    index: &DocIndex,
    after: Option<LeafId>,
    leaf: LeafId,
    ids: Vec<u32>,
    rows: &mut Steps<L>,
) -> Result<DocIndex, Memory>
    requires new { has leaf.0 (by_id.leaf_ids index.now.leaves) ≡ false }
    requires after { IfSome after (λ other. has other.0 (by_id.leaf_ids index.now.leaves) ≡ true) }
    ensures index { IfOk result (λ made. made ≡
        by_id.with_leaf index.now (place_following after (by_id.leaf_ids index.now.leaves)) (by_id.leaf_of leaf.0 ids.items)) }
    ensures counted { OnOk result (rows.new ≡ rows.old + length ids.items) }
    ensures at_most { rows.new ≤ rows.old + length ids.items }
{
    let at = place_following(index, after);
    let copy = index.copy()?;
    let made = copy.put_leaf(at, leaf, ids, rows)?;
    Ok(made)
}

/// The place directly after a leaf that is there, or the one before all.
fn place_following(index: &DocIndex, after: Option<LeafId>) -> usize
    requires { IfSome after (λ other. has other.0 (by_id.leaf_ids index.now.leaves) ≡ true) }
    ensures place { result ≡ place_following after (by_id.leaf_ids index.now.leaves) }
    ensures within { result ≤ length index.now.leaves }
{
    let _leaves = index.leaf_count();
    match after {
        Some(leaf) => match index.find_leaf(leaf) {
            Some(number) => number + 1,
            None => unreachable!(),
        },
        None => 0,
    }
}

/// Takes the leaf of that number out of the document.
pub(crate) fn take_leaf<L: Ledger>(
    alloc: Global,
    parts: &mut Parts,
    doc: DocId,
    leaf: LeafId,
    rows: &mut Steps<L>,
) -> Result<(), Memory>
    requires sound { IsSound parts.old }
    requires there { has_leaf leaf.0 (document_at doc.0 (meaning parts.old)) ≡ true }
    ensures sound { OnOk result (IsSound parts.new) }
    ensures meaning { OnOk result (meaning parts.new ≡
        with_document (numbered doc.0 (without_leaf leaf.0 (document_at doc.0 (meaning parts.old)))) (meaning parts.old)) }
    ensures counted { OnOk result (rows.new ≡ rows.old + length (leaf_words leaf.0 (document_at doc.0 (meaning parts.old)).leaves)) }
    ensures at_most { rows.new ≤ rows.old + length (leaf_words leaf.0 (document_at doc.0 (meaning parts.old)).leaves) }
{
    let held = document_or_new(alloc, &parts.documents, doc)?;
    let index = index_without_leaf(held.index(), leaf, rows)?;
    let next = held.with_index(alloc, index)?;
    change(alloc, parts, doc, Some(next))?;
    Ok(())
}

/// The index of the document without that leaf.
fn index_without_leaf<L: Ledger>(
    index: &DocIndex,
    leaf: LeafId,
    rows: &mut Steps<L>,
) -> Result<DocIndex, Memory>
    requires { has leaf.0 (by_id.leaf_ids index.now.leaves) ≡ true }
    ensures index { IfOk result (λ made. made ≡
        by_id.document_of index.now.doc (filter (λ other. not (other.id == leaf.0)) index.now.leaves)) }
    ensures counted { OnOk result (rows.new ≡ rows.old + length (ids_of_leaf leaf.0 index.now.leaves)) }
    ensures at_most { rows.new ≤ rows.old + length (ids_of_leaf leaf.0 index.now.leaves) }
{
    let _leaves = index.leaf_count();
    match index.find_leaf(leaf) {
        Some(at) => {
            let copy = index.copy()?;
            let (rest, _ids) = copy.take_leaf(at, rows)?;
            Ok(rest)
        }
        None => unreachable!(),
    }
}

/// Puts a document in that isn't there, with all its leaves and its breaks.
pub(crate) fn put_document<L: Ledger>(
    alloc: Global,
    parts: &mut Parts,
    doc: DocId,
    leaves: &WordLeaves,
    breaks: Breaks,
    hints: &mut WordHints,
    rows: &mut Steps<L>,
) -> Result<(), Memory>
    requires sound { IsSound parts.old }
    requires new { has_document doc.0 (meaning parts.old) ≡ false }
    requires distinct { are_distinct (leaf_ids leaves.now) ≡ true }
    ensures sound { OnOk result (IsSound parts.new) }
    ensures meaning { OnOk result (meaning parts.new ≡ with_document (numbered doc.0 (document_of leaves.now breaks)) (meaning parts.old)) }
    ensures counted { OnOk result (rows.new ≡ rows.old + length (all_words leaves.now)) }
    ensures at_most { rows.new ≤ rows.old + length (all_words leaves.now) }
{
    let made = name_leaves(alloc, &mut parts.dictionary, &parts.counts, hints, leaves)?;
    let index = DocIndex::from_leaves(alloc, doc, made, rows)?;
    let next = HeldDocument::new(alloc, index, breaks)?;
    change(alloc, parts, doc, Some(next))?;
    Ok(())
}

/// Takes the document with all its leaves out.
pub(crate) fn take_document<L: Ledger>(
    alloc: Global,
    parts: &mut Parts,
    doc: DocId,
    rows: &mut Steps<L>,
) -> Result<(), Memory>
    requires sound { IsSound parts.old }
    requires there { has_document doc.0 (meaning parts.old) ≡ true }
    ensures sound { OnOk result (IsSound parts.new) }
    ensures meaning { OnOk result (meaning parts.new ≡ without_document doc.0 (meaning parts.old)) }
    ensures counted { OnOk result (rows.new ≡ rows.old + token_count (document_at doc.0 (meaning parts.old))) }
    ensures at_most { rows.new ≤ rows.old + token_count (document_at doc.0 (meaning parts.old)) }
{
    let index = document(&parts.documents, doc).index().copy()?;
    match change(alloc, parts, doc, None) {
        Ok(()) => {
            index.clear(rows);
            Ok(())
        }
        Err(memory) => {
            drop(index);
            Err(memory)
        }
    }
}

/// Gives the document other breaks. It comes in, where it isn't there. Where memory runs out, all stays as it was.
pub(crate) fn put_breaks(
    alloc: Global,
    parts: &mut Parts,
    doc: DocId,
    breaks: Breaks,
) -> Result<(), Memory>
    requires { IsSound parts.old }
    ensures sound { IsSound parts.new }
    ensures ok { OnOk result (meaning parts.new ≡
        with_document (numbered doc.0 (with_breaks breaks (document_at doc.0 (meaning parts.old)))) (meaning parts.old)) }
    ensures err { OnErr result (meaning parts.new ≡ meaning parts.old) }
{
    let held = document_or_new(alloc, &parts.documents, doc)?;
    let next = held.with_breaks(alloc, breaks)?;
    drop(exchange(&mut parts.documents, doc, Some(next))?);
    Ok(())
}

/// Takes a document without leaves out. Where memory runs out, all stays as it was.
pub(crate) fn forget(parts: &mut Parts, doc: DocId) -> Result<(), Memory>
    requires sound { IsSound parts.old }
    requires no_leaf { (document_at doc.0 (meaning parts.old)).leaves ≡ [] }
    ensures sound { IsSound parts.new }
    ensures ok { OnOk result (meaning parts.new ≡ without_document doc.0 (meaning parts.old)) }
    ensures err { OnErr result (meaning parts.new ≡ meaning parts.old) }
{
    drop(exchange(&mut parts.documents, doc, None)?);
    Ok(())
}
