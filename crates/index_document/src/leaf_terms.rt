//! The terms of a document's words, one after the other.
ghost use Rattle.std.specs.Prelude.{◌≡◌, ◌≤◌, ◌+◌, ◌-◌, ◌++◌, drop, length, min, slice_index_or, slice_range, take, [], OnOk};
ghost use Rattle.index_document.specs.Terms.{leaf_words, words_of};

use crate::leaves::Leaves;
use ft_base::Memory;

/// Puts the terms of the words from one number up to another, counted from 0, after the others.
pub(crate) fn push_terms(
    leaves: &Leaves,
    from: usize,
    to: usize,
    terms: &mut Vec<u32>,
) -> Result<(), Memory>
    ensures { OnOk result (terms.new.items ≡ terms.old.items ++ slice_range (words_of leaves.now.leaves) from to) }
{
    let count = leaves.count();
    for number in first_after(leaves, from)..count {
        let before = leaves.words_before(number);
        if before >= to {
            return Ok(());
        }
        push_part(
            leaves.get(number).terms(),
            from.saturating_sub(before),
            to - before,
            terms,
        )?;
    }
    Ok(())
}

/// Puts the terms from one number up to another after the others.
fn push_part(words: &[u32], from: usize, to: usize, terms: &mut Vec<u32>) -> Result<(), Memory>
    ensures { OnOk result (terms.new.items ≡ terms.old.items ++ slice_range words.now from to) }
{
    let end = to.min(words.len());
    let first = from.min(end);
    terms.extend_from_slice(&words[first..end])?;
    Ok(())
}

/// How many leaves there are that end before the word of that number, counted from 0, or directly before it.
fn first_after(leaves: &Leaves, word: usize) -> usize
    ensures within { result ≤ length leaves.now.leaves }
    ensures before { length (words_of (take result leaves.now.leaves)) ≤ word }
{
    let mut low = 0;
    let mut high = leaves.count();
    while low < high {
        let middle = low + (high - low) / 2;
        if leaves.words_before(middle + 1) <= word {
            low = middle + 1;
        } else {
            high = middle;
        }
    }
    low
}
