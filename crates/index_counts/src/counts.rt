ghost use Rattle.std.specs.Prelude.{◌≡◌, ◌+◌, ◌-◌, ◌<◌, ◌&&◌, ◌==◌, ◌++◌, ◌∷◌, [], ℕ, true, cond, length, IfOk, OnOk};
ghost use Rattle.index_document.specs.Terms.{has, words_of};
ghost use Rattle.index_counts.specs.Counts.{count_of, count_with, count_without, fallen};

use ft_base::Memory;
use index_document::DocIndex;
use shared_list::SharedList;
use std::alloc::Global;
use std::marker::Model;

/// How many counts a block holds at most.
const BLOCK_COUNTS: usize = 512;

/// Counts by the numbers of the terms.
type Counts = SharedList<u32, BLOCK_COUNTS>;

/// How many documents have each term, by the term's number; a number after the last one counts 0. A copy shares the
/// blocks of the counts that it was made of; neither sees a change to the other.
#[derive(Drop)]
pub struct DocumentCounts {
    alloc: Global,
    counts: Counts,
}

impl Model for DocumentCounts {
    ghost use Rattle.std.specs.Prelude.{ℕ, List};

    ghost Value = { List ℕ };

    ghost view = { λ inside. inside.counts };
}

impl DocumentCounts {
    /// The counts where there is no document.
    pub fn empty(alloc: Global) -> DocumentCounts
        ensures { result ≡ [] }
    {
        DocumentCounts {
            alloc,
            counts: Counts::new(alloc),
        }
    }

    /// The same counts once more; none is copied.
    pub fn copy(&self) -> Result<DocumentCounts, Memory>
        ensures { IfOk result (λ copy. copy ≡ self.now) }
    {
        let counts = self.counts.copy()?;
        Ok(DocumentCounts {
            alloc: self.alloc,
            counts,
        })
    }

    /// How many documents have the term.
    pub fn count(&self, term: u32) -> u32
        ensures { result ≡ count_of self.now term }
    {
        count_at(&self.counts, term)
    }

    /// The counts with one document more: each of its terms counts one more, however often it stands there. Answers
    /// `Memory` also where a count is too great.
    pub fn shifted(self, index: &DocIndex) -> Result<DocumentCounts, Memory>
        ensures counts { IfOk result (λ shifted. (term : ℕ) → count_of shifted term ≡ count_with self (words_of index.now.leaves) term) }
    {
        let alloc = self.alloc;
        let mut counts = self.counts;
        raise_all(&mut counts, index)?;
        Ok(DocumentCounts { alloc, counts })
    }

    /// The counts with one document less, each of whose terms is counted, and those of its terms that no document has
    /// any more, ascending.
    pub fn lowered(self, index: &DocIndex) -> Result<(DocumentCounts, Vec<u32>), Memory>
        requires { (term : ℕ) → has term (words_of index.now.leaves) ≡ true → 0 < count_of self term }
        ensures counts { IfOk result (λ lowered. (term : ℕ) → count_of lowered.0 term ≡ count_without self (words_of index.now.leaves) term) }
        ensures fallen { IfOk result (λ lowered. lowered.1.items ≡ fallen lowered.0 (words_of index.now.leaves)) }
        ensures members { IfOk result (λ lowered. (term : ℕ) →
            has term lowered.1.items ≡ (has term (words_of index.now.leaves) && count_of lowered.0 term == 0)) }
    {
        let alloc = self.alloc;
        let mut counts = self.counts;
        let mut fallen = Vec::new(alloc);
        lower_all(&mut counts, index, &mut fallen)?;
        Ok((DocumentCounts { alloc, counts }, fallen))
    }
}

/// The count of the term.
fn count_at(counts: &Counts, term: u32) -> u32
    ensures { result ≡ count_of counts.now term }
{
    let at = term as usize;
    if at >= counts.len() {
        return 0;
    }
    *counts.get(at)
}

/// Raises the count of each of the document's terms by one.
fn raise_all(counts: &mut Counts, index: &DocIndex) -> Result<(), Memory>
    ensures { OnOk result ((term : ℕ) → count_of counts.new term ≡ count_with counts.old (words_of index.now.leaves) term) }
{
    for number in 0..index.term_count() {
        raise(counts, index.term(number))?;
    }
    Ok(())
}

/// Raises the count of the term by one. A count of more than 32 bits finds no memory.
fn raise(counts: &mut Counts, term: u32) -> Result<(), Memory>
    ensures { OnOk result ((other : ℕ) → count_of counts.new other ≡ count_of counts.old other + cond (term == other) 1 0) }
{
    let at = term as usize;
    cover(counts, at)?;
    let Some(count) = counts.get(at).checked_add(1) else {
        return Err(Memory);
    };
    counts.replace(at, count)?;
    Ok(())
}

/// Sees to it that the place is one of the list's, by zeros after the last count.
fn cover(counts: &mut Counts, at: usize) -> Result<(), Memory>
    ensures there { OnOk result (at < length counts.new) }
    ensures same { OnOk result ((term : ℕ) → count_of counts.new term ≡ count_of counts.old term) }
{
    while counts.len() <= at {
        counts.push(0)?;
    }
    Ok(())
}

/// Lowers the count of each of the document's terms by one, and puts those whose count is 0 then after the last of
/// the others, ascending.
fn lower_all(counts: &mut Counts, index: &DocIndex, gone: &mut Vec<u32>) -> Result<(), Memory>
    requires { (term : ℕ) → has term (words_of index.now.leaves) ≡ true → 0 < count_of counts.old term }
    ensures counts { OnOk result ((term : ℕ) → count_of counts.new term ≡ count_without counts.old (words_of index.now.leaves) term) }
    ensures gone { OnOk result (gone.new.items ≡ gone.old.items ++ fallen counts.new (words_of index.now.leaves)) }
{
    for number in 0..index.term_count() {
        let term = index.term(number);
        let count = lower(counts, term)?;
        push_if(gone, term, count == 0)?;
    }
    Ok(())
}

/// Lowers the count of the term by one. Answers what it is then.
fn lower(counts: &mut Counts, term: u32) -> Result<u32, Memory>
    requires { 0 < count_of counts.old term }
    ensures count { IfOk result (λ count. count ≡ count_of counts.new term) }
    ensures lowered { OnOk result ((other : ℕ) → count_of counts.new other ≡ count_of counts.old other - cond (term == other) 1 0) }
{
    let at = term as usize;
    let count = *counts.get(at) - 1;
    counts.replace(at, count)?;
    Ok(count)
}

/// Puts a term after the last one, where it has fallen.
fn push_if(gone: &mut Vec<u32>, term: u32, falls: bool) -> Result<(), Memory>
    ensures { OnOk result (gone.new.items ≡ gone.old.items ++ cond falls (term ∷ []) []) }
{
    if falls {
        gone.push(term)?;
    }
    Ok(())
}
