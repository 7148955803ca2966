ghost use Rattle.std.specs.Prelude.{◌≡◌, ◌≤◌, ◌+◌, [], false, true, length, IfSome, OnErr, OnOk};
ghost use Rattle.index_document.specs.Terms.{are_distinct};
ghost use Rattle.index_meaning.specs.Documents.{leaf_of, document_of, numbered, leaf_ids, leaf_words, has_leaf, token_count};
ghost use Rattle.index_meaning.specs.Documents.{with_leaf, without_leaf, with_breaks, has_document, document_at, with_document, without_document};
ghost use Rattle.index_versions.specs.steps.Naming.{all_words};

use crate::parts::Parts;
use crate::version::Version;
use crate::{WordHints, WordLeaves, leaves};
use ft_base::{Breaks, DocId, LeafId, Memory, Steps};
use std::mem;
use std::sync::ledger::Ledger;
use text_list::TextList;

impl Version {
    /// Puts a leaf with these words into the document, directly after the leaf `after`, which is there, or before
    /// all. The leaf isn't there; the document comes in where it isn't there. Counts a row for each word; where memory
    /// runs out, no more than that, and the version is to be given up.
    pub fn put_leaf<L: Ledger>(
        &mut self,
        doc: DocId,
        after: Option<LeafId>,
        leaf: LeafId,
        words: &TextList,
        rows: &mut Steps<L>,
    ) -> Result<(), Memory>
        requires new { has_leaf leaf.0 (document_at doc.0 self.old) ≡ false }
        requires after { IfSome after (λ other. has_leaf other.0 (document_at doc.0 self.old) ≡ true) }
        ensures ok { OnOk result (self.new ≡
            with_document (numbered doc.0 (with_leaf after (leaf_of leaf.0 words.now) (document_at doc.0 self.old))) self.old) }
        ensures counted { OnOk result (rows.new ≡ rows.old + length words.now) }
        ensures at_most { rows.new ≤ rows.old + length words.now }
    {
        let alloc = self.alloc;
        let mut parts = mem::replace(&mut self.parts, Parts::empty(alloc));
        match leaves::put_leaf(alloc, &mut parts, doc, after, leaf, words, rows) {
            Ok(()) => {
                self.parts = parts;
                Ok(())
            }
            Err(_) => {
                drop(parts);
                Err(Memory)
            }
        }
    }

    /// Takes a leaf out of the document, which stays where it was the last one. Counts a row for each of its words; where
    /// memory runs out, no more than that, and the version is to be given up.
    pub fn take_leaf<L: Ledger>(
        &mut self,
        doc: DocId,
        leaf: LeafId,
        rows: &mut Steps<L>,
    ) -> Result<(), Memory>
        requires { has_leaf leaf.0 (document_at doc.0 self.old) ≡ true }
        ensures ok { OnOk result (self.new ≡ with_document (numbered doc.0 (without_leaf leaf.0 (document_at doc.0 self.old))) self.old) }
        ensures counted { OnOk result (rows.new ≡ rows.old + length (leaf_words leaf.0 (document_at doc.0 self.old).leaves)) }
        ensures at_most { rows.new ≤ rows.old + length (leaf_words leaf.0 (document_at doc.0 self.old).leaves) }
    {
        let alloc = self.alloc;
        let mut parts = mem::replace(&mut self.parts, Parts::empty(alloc));
        match leaves::take_leaf(alloc, &mut parts, doc, leaf, rows) {
            Ok(()) => {
                self.parts = parts;
                Ok(())
            }
            Err(_) => {
                drop(parts);
                Err(Memory)
            }
        }
    }

    /// Puts a document in that isn't there, with all its leaves, whose numbers are different, and its breaks. The hints
    /// may be of any version, and those of the new words are noted. Counts a row for each word; where memory runs out, no
    /// more than that, and the version is to be given up.
    pub fn put_document<L: Ledger>(
        &mut self,
        doc: DocId,
        leaves: &WordLeaves,
        breaks: Breaks,
        hints: &mut WordHints,
        rows: &mut Steps<L>,
    ) -> Result<(), Memory>
        requires new { has_document doc.0 self.old ≡ false }
        requires distinct { are_distinct (leaf_ids leaves.now) ≡ true }
        ensures ok { OnOk result (self.new ≡ with_document (numbered doc.0 (document_of leaves.now breaks)) self.old) }
        ensures counted { OnOk result (rows.new ≡ rows.old + length (all_words leaves.now)) }
        ensures at_most { rows.new ≤ rows.old + length (all_words leaves.now) }
    {
        let alloc = self.alloc;
        let mut parts = mem::replace(&mut self.parts, Parts::empty(alloc));
        match leaves::put_document(alloc, &mut parts, doc, leaves, breaks, hints, rows) {
            Ok(()) => {
                self.parts = parts;
                Ok(())
            }
            Err(_) => {
                drop(parts);
                Err(Memory)
            }
        }
    }

    /// Takes the document with all its leaves out. Counts a row for each of its words; where memory runs out, no more than
    /// that, and the version is to be given up.
    pub fn take_document<L: Ledger>(
        &mut self,
        doc: DocId,
        rows: &mut Steps<L>,
    ) -> Result<(), Memory>
        requires { has_document doc.0 self.old ≡ true }
        ensures ok { OnOk result (self.new ≡ without_document doc.0 self.old) }
        ensures counted { OnOk result (rows.new ≡ rows.old + token_count (document_at doc.0 self.old)) }
        ensures at_most { rows.new ≤ rows.old + token_count (document_at doc.0 self.old) }
    {
        let alloc = self.alloc;
        let mut parts = mem::replace(&mut self.parts, Parts::empty(alloc));
        match leaves::take_document(alloc, &mut parts, doc, rows) {
            Ok(()) => {
                self.parts = parts;
                Ok(())
            }
            Err(_) => {
                drop(parts);
                Err(Memory)
            }
        }
    }

    /// Sets where the sentences and the paragraphs of the document start. It comes in, without leaves, where it isn't
    /// there. Where memory runs out, the version stays as it was.
    pub fn set_breaks(&mut self, doc: DocId, breaks: Breaks) -> Result<(), Memory>
        ensures ok { OnOk result (self.new ≡ with_document (numbered doc.0 (with_breaks breaks (document_at doc.0 self.old))) self.old) }
        ensures err { OnErr result (self.new ≡ self.old) }
    {
        leaves::put_breaks(self.alloc, &mut self.parts, doc, breaks)
    }

    /// Takes a document out that has no leaf. Where memory runs out, the version stays as it was.
    pub fn forget_doc(&mut self, doc: DocId) -> Result<(), Memory>
        requires there { has_document doc.0 self.old ≡ true }
        requires no_leaf { (document_at doc.0 self.old).leaves ≡ [] }
        ensures ok { OnOk result (self.new ≡ without_document doc.0 self.old) }
        ensures err { OnErr result (self.new ≡ self.old) }
    {
        leaves::forget(&mut self.parts, doc)
    }
}
