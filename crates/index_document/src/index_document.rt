ghost use Rattle.std.specs.Prelude.{◌≡◌, ◌≤◌, ◌<◌, ◌+◌, ◌^◌, ◌++◌, [], false, true, length, slice_index, slice_index_or, slice_range, IfNone, IfOk, IfSome, IsTrue, OnOk};
ghost use Rattle.ft_base.specs.Places.{is_ascending};
ghost use Rattle.index_document.specs.Rows.{IsRunOf, IsSound};
ghost use Rattle.index_document.specs.Terms.{are_distinct, document_of, has, leaf_ids, leaf_of, leaf_words, places_of, terms_of, with_leaf, without_leaf, words_of};

use crate::changes::{put_entries, take_entries};
use crate::entry::{entries_of_leaf, entries_of_leaves, sorted};
use crate::groups::{Run, run_at};
use crate::leaf_terms::push_terms;
use crate::leaves::Leaves;
use crate::parts::Parts;
use crate::terms::{find_term, narrow};
use crate::{TermLeaf, TermPlaces};
use ft_base::{DocId, LeafId, Memory, Steps};
use std::alloc::Global;
use std::marker::Model;
use std::sync::ledger::Ledger;

/// The index of one document. Contracts see the document's number and its leaves in order, with the terms of their
/// words. No two leaves have the same number.
#[derive(Drop)]
pub struct DocIndex {
    parts: Parts,
}

impl Model for DocIndex {
    ghost use Rattle.index_document.specs.Terms.{TermDocument};
    ghost use Rattle.index_document.specs.Rows.{IsSound};

    ghost Value = { TermDocument };

    ghost view = { λ inside. inside.parts.leaves };

    ghost invariant = { λ inside. IsSound inside.parts };
}

impl DocIndex {
    /// The index of a document without leaves.
    pub fn empty(alloc: Global, doc: DocId) -> DocIndex
        ensures { result ≡ document_of doc.0 [] }
    {
        let parts = Parts::empty(alloc, doc);
        DocIndex { parts }
    }

    /// The same index once more; no row and no word is copied.
    pub fn copy(&self) -> Result<DocIndex, Memory>
        ensures { IfOk result (λ copy. copy ≡ self.now) }
    {
        let parts = self.parts.copy()?;
        Ok(DocIndex { parts })
    }

    /// The index of a document with these leaves, whose numbers are all different. Counts a row for each word; where
    /// memory runs out, no more than that.
    pub fn from_leaves<L: Ledger>(
        alloc: Global,
        doc: DocId,
        leaves: Vec<TermLeaf>,
        rows: &mut Steps<L>,
    ) -> Result<DocIndex, Memory>
        requires { IsTrue (are_distinct (leaf_ids leaves.items)) }
        ensures ok { IfOk result (λ index. index ≡ document_of doc.0 leaves.items) }
        ensures counted { OnOk result (rows.new ≡ rows.old + length (words_of leaves.items)) }
        ensures at_most { rows.new ≤ rows.old + length (words_of leaves.items) }
    {
        let entries = sorted(entries_of_leaves(alloc, &leaves)?)?;
        let mut parts = Parts::empty(alloc, doc);
        put_entries(&mut parts, 0, &entries, rows)?;
        let whole = Leaves::of(alloc, doc, &leaves)?;
        parts.leaves = whole;
        Ok(DocIndex { parts })
    }

    /// Puts a leaf with these words at that place, counted from 0, before the leaf that is there. Its number is
    /// a new one. Counts a row for each word; where memory runs out, no more than that.
    pub fn put_leaf<L: Ledger>(
        self,
        at: usize,
        leaf: LeafId,
        terms: Vec<u32>,
        rows: &mut Steps<L>,
    ) -> Result<DocIndex, Memory>
        requires place { at ≤ length self.leaves }
        requires new { has leaf.0 (leaf_ids self.leaves) ≡ false }
        ensures ok { IfOk result (λ index. index ≡ with_leaf self at (leaf_of leaf.0 terms.items)) }
        ensures counted { OnOk result (rows.new ≡ rows.old + length terms.items) }
        ensures at_most { rows.new ≤ rows.old + length terms.items }
    {
        let mut parts = self.parts;
        let made = TermLeaf::new(leaf, terms)?;
        let alloc = parts.leaves.allocator();
        let _doc = parts.leaves.doc();
        let entries = sorted(entries_of_leaf(alloc, &made)?)?;
        put_entries(&mut parts, at, &entries, rows)?;
        let whole = parts.leaves.with_leaf(at, made)?;
        let parts = Parts {
            leaves: whole,
            ids: parts.ids,
            starts: parts.starts,
            rows: parts.rows,
        };
        Ok(DocIndex { parts })
    }

    /// Takes the leaf at that place, counted from 0, out of the index, and hands out the terms of its words. Counts a
    /// row for each word; where memory runs out, no more than that.
    pub fn take_leaf<L: Ledger>(
        self,
        at: usize,
        rows: &mut Steps<L>,
    ) -> Result<(DocIndex, Vec<u32>), Memory>
        requires { at < length self.leaves }
        ensures index { IfOk result (λ taken. taken.0 ≡ without_leaf self at) }
        ensures words { IfOk result (λ taken. taken.1.items ≡ slice_index_or (leaf_words self.leaves) at []) }
        ensures counted { OnOk result (rows.new ≡ rows.old + length (slice_index_or (leaf_words self.leaves) at [])) }
        ensures at_most { rows.new ≤ rows.old + length (slice_index_or (leaf_words self.leaves) at []) }
    {
        let mut parts = self.parts;
        let alloc = parts.leaves.allocator();
        let leaf = parts.leaves.get(at);
        let _doc = parts.leaves.doc();
        let entries = sorted(entries_of_leaf(alloc, leaf)?)?;
        let terms = Vec::from_slice(alloc, leaf.terms())?;
        take_entries(&mut parts, at, &entries, rows)?;
        let rest = parts.leaves.without_leaf(at)?;
        let mut parts = Parts {
            leaves: rest,
            ids: parts.ids,
            starts: parts.starts,
            rows: parts.rows,
        };
        narrow(&mut parts)?;
        Ok((DocIndex { parts }, terms))
    }

    /// Takes all leaves out: the index goes with its rows. Counts a row for each word.
    pub fn clear<L: Ledger>(self, rows: &mut Steps<L>)
        ensures { rows.new ≡ rows.old + length (words_of self.leaves) }
    {
        let parts = self.parts;
        parts.rows.clear(rows);
    }

    /// The number of the document.
    pub fn doc(&self) -> DocId
        ensures { result.0 ≡ self.now.doc }
    {
        self.parts.leaves.doc()
    }

    /// How many leaves there are. No two have the same number.
    pub fn leaf_count(&self) -> usize
        ensures count { result ≡ length self.now.leaves }
        ensures distinct { are_distinct (leaf_ids self.now.leaves) ≡ true }
    {
        let _doc = self.parts.leaves.doc();
        self.parts.leaves.count()
    }

    /// The leaf at that place, counted from 0.
    pub fn leaf(&self, number: usize) -> LeafId
        requires { number < length self.now.leaves }
        ensures { result.0 ≡ slice_index (leaf_ids self.now.leaves) number }
    {
        self.parts.leaves.get(number).leaf()
    }

    /// At which place the leaf stands, counted from 0, and `None` exactly where it isn't there.
    pub fn find_leaf(&self, leaf: LeafId) -> Option<usize>
        ensures found { IfSome result (λ number. (number < length self.now.leaves) × (slice_index (leaf_ids self.now.leaves) number ≡ leaf.0)) }
        ensures none { IfNone result (has leaf.0 (leaf_ids self.now.leaves) ≡ false) }
    {
        self.parts.leaves.find(leaf)
    }

    /// How many words the document has: a number of 32 bits.
    pub fn token_count(&self) -> usize
        ensures count { result ≡ length (words_of self.now.leaves) }
        ensures few { result < 2 ^ 32 }
    {
        self.parts.leaves.words()
    }

    /// Puts the terms of the words from one number up to another, counted from 0, after the others, in order. The leaf of the first
    /// of them is found by halves. Where memory runs out, the first ones of them may be there.
    pub fn push_terms(&self, from: usize, to: usize, terms: &mut Vec<u32>) -> Result<(), Memory>
        ensures { OnOk result (terms.new.items ≡ terms.old.items ++ slice_range (words_of self.now.leaves) from to) }
    {
        push_terms(&self.parts.leaves, from, to, terms)
    }

    /// How many terms the document has.
    pub fn term_count(&self) -> usize
        ensures { result ≡ length (terms_of (words_of self.now.leaves)) }
    {
        self.parts.ids.len()
    }

    /// The term of that number, counted from 0, in ascending order.
    pub fn term(&self, number: usize) -> u32
        requires { number < length (terms_of (words_of self.now.leaves)) }
        ensures { result ≡ slice_index (terms_of (words_of self.now.leaves)) number }
    {
        self.parts.ids[number]
    }

    /// The places at which the term stands in the document.
    pub fn places(&self, term: u32) -> TermPlaces<'_>
        ensures places { result ≡ places_of term self.now.leaves }
        ensures ascending { IsTrue (is_ascending result) }
    {
        let parts = &self.parts;
        let run = run_of(parts, term);
        TermPlaces::new(&parts.leaves, &parts.rows, run)
    }
}

/// The rows of a term; there are none where it isn't one of the document's.
fn run_of(parts: &Parts, term: u32) -> Run
    requires { IsSound parts.now }
    ensures term { result.term ≡ term }
    ensures run { IsRunOf parts.now.leaves parts.now.rows result.term result.first result.end }
{
    let _doc = parts.leaves.doc();
    match find_term(&parts.ids, term) {
        Some(number) => run_at(parts, parts.rows.len(), number),
        None => Run {
            term,
            first: 0,
            end: 0,
        },
    }
}
