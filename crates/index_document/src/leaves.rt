ghost use Rattle.std.specs.Prelude.{◌≡◌, ◌≤◌, ◌<◌, ◌^◌, ◌+◌, ◌++◌, ◌∷◌, [], false, true, nat_le, length};
ghost use Rattle.std.specs.Prelude.{take, slice_index, slice_index_or, IfNone, IfOk, IfSome};
ghost use Rattle.index_document.specs.Terms.{are_distinct, document_of, has, leaf_ids, with_leaf, without_leaf, words_of};
ghost use Rattle.index_document.specs.steps.Directory.{place_of, slot_of};

use crate::TermLeaf;
use crate::slots::{close_gap, number_at, open_gap, put_number};
use ft_base::{DocId, LeafId, Memory};
use postings::Row;
use shared_list::SharedList;
use std::alloc::Global;
use std::marker::Model;

/// How many leaves a block holds at most.
const BLOCK_LEAVES: usize = 64;

/// How many words a document has at most: places are of 32 bits.
const MAX_WORDS: usize = 4294967295;

/// The leaves of a document in order, each found by its number.
#[derive(Drop)]
pub struct Leaves {
    doc: DocId,
    leaves: SharedList<TermLeaf, BLOCK_LEAVES>,
    // By the number of a leaf, which is that of its node, so that there are no more than nodes: the leaf's place,
    // counted from 1, and how many words stand before it.
    slots: Vec<u32>,
    befores: Vec<u32>,
    words: usize,
}

impl Model for Leaves {
    ghost use Rattle.index_document.specs.Terms.{TermDocument, document_of};
    ghost use Rattle.index_document.specs.steps.Directory.{IsDirectory};

    ghost Value = { TermDocument };

    ghost view = { λ inside. document_of inside.doc.0 inside.leaves };

    ghost invariant = { λ inside. IsDirectory inside.leaves inside.slots.items inside.befores.items inside.words };
}

impl Leaves {
    /// No leaves.
    pub(crate) fn empty(alloc: Global, doc: DocId) -> Leaves
        ensures { result ≡ document_of doc.0 [] }
    {
        Leaves {
            doc,
            leaves: SharedList::new(alloc),
            slots: Vec::new(alloc),
            befores: Vec::new(alloc),
            words: 0,
        }
    }

    /// The same leaves once more; no word is copied.
    pub(crate) fn copy(&self) -> Result<Leaves, Memory>
        ensures { IfOk result (λ copy. copy ≡ self.now) }
    {
        let alloc = *self.slots.allocator();
        let leaves = self.leaves.copy()?;
        let slots = Vec::from_slice(alloc, self.slots.as_slice())?;
        let befores = Vec::from_slice(alloc, self.befores.as_slice())?;
        Ok(Leaves {
            doc: self.doc,
            leaves,
            slots,
            befores,
            words: self.words,
        })
    }

    /// These leaves, whose numbers are all different.
    pub(crate) fn of(alloc: Global, doc: DocId, leaves: &Vec<TermLeaf>) -> Result<Leaves, Memory>
        requires { are_distinct (leaf_ids leaves.now.items) ≡ true }
        ensures { IfOk result (λ made. made ≡ document_of doc.0 leaves.now.items) }
    {
        let mut made = Leaves::empty(alloc, doc);
        for leaf in leaves {
            made = made.with_last(leaf)?;
        }
        Ok(made)
    }

    /// The leaves with one more after the last.
    fn with_last(self, leaf: &TermLeaf) -> Result<Leaves, Memory>
        requires { has leaf.now.id (leaf_ids self.leaves) ≡ false }
        ensures { IfOk result (λ made. made ≡ document_of self.doc (self.leaves ++ leaf.now ∷ [])) }
    {
        let at = self.count();
        let leaf = leaf.share()?;
        self.with_leaf(at, leaf)
    }

    /// The memory in which the leaves are.
    pub(crate) fn allocator(&self) -> Global {
        *self.slots.allocator()
    }

    /// The number of the document.
    pub(crate) fn doc(&self) -> DocId
        ensures doc { result.0 ≡ self.now.doc }
        ensures distinct { are_distinct (leaf_ids self.now.leaves) ≡ true }
    {
        self.doc
    }

    /// How many leaves there are.
    pub(crate) fn count(&self) -> usize
        ensures { result ≡ length self.now.leaves }
    {
        self.leaves.len()
    }

    /// How many words there are.
    pub(crate) fn words(&self) -> usize
        ensures words { result ≡ length (words_of self.now.leaves) }
        ensures few { result < 2 ^ 32 }
    {
        self.words
    }

    /// The leaf at that place, counted from 0.
    pub(crate) fn get(&self, number: usize) -> &TermLeaf
        requires { number < length self.now.leaves }
        ensures { result.now ≡ slice_index_or self.now.leaves number result.now }
    {
        self.leaves.get(number)
    }

    /// At which place the leaf stands, counted from 0, and `None` exactly where it isn't there.
    pub(crate) fn find(&self, leaf: LeafId) -> Option<usize>
        ensures found { IfSome result (λ number. (number < length self.now.leaves) × (slice_index (leaf_ids self.now.leaves) number ≡ leaf.0)) }
        ensures none { IfNone result (has leaf.0 (leaf_ids self.now.leaves) ≡ false) }
    {
        number_at(&self.slots, leaf.0 as usize).checked_sub(1)
    }

    /// Whether the leaf stands before that place.
    pub(crate) fn is_before(&self, leaf: LeafId, at: usize) -> bool
        ensures { result ≡ nat_le (slot_of (leaf_ids self.now.leaves) leaf.0) at }
    {
        number_at(&self.slots, leaf.0 as usize) <= at
    }

    /// The place of one of the words, counted from 1.
    pub(crate) fn place(&self, row: Row) -> u32
        requires leaf { has row.leaf.0 (leaf_ids self.now.leaves) ≡ true }
        requires within { place_of self.now.leaves row ≤ length (words_of self.now.leaves) }
        ensures { result ≡ place_of self.now.leaves row }
    {
        let _words = self.words;
        let before = number_at(&self.befores, row.leaf.0 as usize) as u32;
        before + row.offset + 1
    }

    /// How many words stand before that place.
    pub(crate) fn words_before(&self, at: usize) -> usize
        requires { at ≤ length self.now.leaves }
        ensures { result ≡ length (words_of (take at self.now.leaves)) }
    {
        if at == self.leaves.len() {
            return self.words;
        }
        number_at(&self.befores, self.leaves.get(at).leaf().0 as usize)
    }

    /// The leaves with one more at that place, before the one that is there.
    pub(crate) fn with_leaf(self, at: usize, leaf: TermLeaf) -> Result<Leaves, Memory>
        requires place { at ≤ length self.leaves }
        requires new { has leaf.id (leaf_ids self.leaves) ≡ false }
        ensures { IfOk result (λ made. made ≡ with_leaf self at leaf) }
    {
        let number = leaf.leaf().0 as usize;
        let count = leaf.terms().len();
        let before = self.words_before(at);
        let words = words_with(self.words, count)?;
        let doc = self.doc;
        let mut leaves = self.leaves;
        let mut slots = self.slots;
        let mut befores = self.befores;
        open_gap(&mut slots, &mut befores, at, leaves.len(), count)?;
        leaves.insert(at, leaf)?;
        let _leaves = leaves.len();
        put_number(&mut slots, number, at + 1)?;
        put_number(&mut befores, number, before)?;
        Ok(Leaves {
            doc,
            leaves,
            slots,
            befores,
            words,
        })
    }

    /// The leaves without the one at that place.
    pub(crate) fn without_leaf(self, at: usize) -> Result<Leaves, Memory>
        requires { at < length self.leaves }
        ensures { IfOk result (λ rest. rest ≡ without_leaf self at) }
    {
        let doc = self.doc;
        let words = self.words;
        let mut leaves = self.leaves;
        let mut slots = self.slots;
        let mut befores = self.befores;
        let leaf = leaves.remove(at)?;
        let count = leaf.terms().len();
        close_gap(&mut slots, &mut befores, at, leaf.leaf().0 as usize, count);
        Ok(Leaves {
            doc,
            leaves,
            slots,
            befores,
            words: words.saturating_sub(count),
        })
    }
}

/// How many words there are with so many more. Where these are more than a document has at most, no memory is found.
fn words_with(words: usize, more: usize) -> Result<usize, Memory>
    requires { words < 2 ^ 32 }
    ensures { IfOk result (λ sum. (sum ≡ words + more) × (sum < 2 ^ 32)) }
{
    if more > MAX_WORDS - words {
        return Err(Memory);
    }
    Ok(words + more)
}
