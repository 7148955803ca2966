ghost use Rattle.std.specs.Prelude.{◌≡◌, ◌≤◌, ◌<◌, ◌+◌, ◌^◌, ◌++◌, ◌∷◌, ◌||◌, [], List, ℕ, true, false, cond, filter};
ghost use Rattle.std.specs.Prelude.{length, map, nat_lt, slice_index, IfNone, IfSome, IsFalse, IsTrue, OnOk};
ghost use Rattle.ft_base.specs.Places.{is_ascending};
ghost use Rattle.index_document.specs.Terms.{has};
ghost use Rattle.index_document.specs.Rows.{HasTerms, IsIndexed, entries_of, has_rows};
ghost use Rattle.index_document.specs.steps.Groups.{term_of};
ghost use Rattle.index_document.specs.steps.Widening.{AreUpTo, IsWidening};
ghost use Rattle.std.specs.List.Sorted.{IsNonDecreasingBy};

use crate::entry::Entry;
use crate::groups::start_at;
use crate::numbers::push_number;
use crate::parts::Parts;
use ft_base::Memory;

/// Terms with the places of their first rows, made of terms that were there, so many of which are done, and new ones.
#[derive(Drop)]
pub struct Made {
    pub ids: Vec<u32>,
    pub starts: Vec<u32>,
    pub number: usize,
}

/// Puts the terms of the entries among those of the index, where they aren't there; they have no rows yet.
pub(crate) fn widen(parts: &mut Parts, entries: &Vec<Entry>) -> Result<(), Memory>
    requires indexed { IsIndexed (entries_of parts.old.leaves) parts.old.ids.items parts.old.starts.items parts.old.rows }
    requires terms { HasTerms (entries_of parts.old.leaves) parts.old.ids.items }
    requires order { IsNonDecreasingBy term_of entries.now.items }
    ensures leaves { OnOk result (parts.new.leaves ≡ parts.old.leaves) }
    ensures indexed { OnOk result (IsIndexed (entries_of parts.old.leaves) parts.new.ids.items parts.new.starts.items parts.new.rows) }
    ensures rising { OnOk result (is_ascending parts.new.ids.items ≡ true) }
    ensures members { OnOk result ((t : _) → has t parts.new.ids.items ≡ (has t parts.old.ids.items || has t (map term_of entries.now.items))) }
{
    let alloc = *parts.ids.allocator();
    let mut made = Made {
        ids: Vec::new(alloc),
        starts: Vec::new(alloc),
        number: 0,
    };
    for next in 0..entries.len() {
        let term = entries[next].term;
        copy_up_to(parts, &mut made, term)?;
        push_new(parts, &mut made, term)?;
    }
    copy_up_to(parts, &mut made, u32::MAX)?;
    made.ids.shrink_to_fit();
    parts.ids = made.ids;
    parts.starts = made.starts;
    Ok(())
}

/// Whether the next of the terms that were there is at most this one.
fn is_up_to(ids: &Vec<u32>, number: usize, term: u32) -> bool
    ensures yes { IsTrue result → (number < length ids.now.items) × (slice_index ids.now.items number ≤ term) }
    ensures no { IsFalse result → number < length ids.now.items → term < slice_index ids.now.items number }
    ensures fits { number < length ids.now.items → slice_index ids.now.items number < 2 ^ 32 }
{
    if number >= ids.len() {
        return false;
    }
    let next = ids[number];
    next <= term
}

/// Does the terms that were there up to this one.
fn copy_up_to(parts: &Parts, made: &mut Made, term: u32) -> Result<(), Memory>
    requires indexed { IsIndexed (entries_of parts.now.leaves) parts.now.ids.items parts.now.starts.items parts.now.rows }
    requires rising { is_ascending parts.now.ids.items ≡ true }
    ensures widening { OnOk result ((done : List ℕ)
        → IsWidening (entries_of parts.now.leaves) parts.now.ids.items made.old.number done made.old.ids.items made.old.starts.items →
        IsWidening (entries_of parts.now.leaves) parts.now.ids.items made.new.number done made.new.ids.items made.new.starts.items) }
    ensures next { OnOk result (made.new.number < length parts.now.ids.items → term < slice_index parts.now.ids.items made.new.number) }
    ensures fits { OnOk result (made.new.number < length parts.now.ids.items → slice_index parts.now.ids.items made.new.number < 2 ^ 32) }
    ensures up_to { OnOk result (AreUpTo term made.old.ids.items → AreUpTo term made.new.ids.items) }
{
    while is_up_to(&parts.ids, made.number, term) {
        made.ids.push(parts.ids[made.number])?;
        made.starts.push(parts.starts[made.number])?;
        made.number += 1;
    }
    Ok(())
}

/// Which of the ascending terms this one is, counted from 0, and `None` exactly where it isn't there.
pub(crate) fn find_term(ids: &Vec<u32>, term: u32) -> Option<usize>
    requires { is_ascending ids.now.items ≡ true }
    ensures found { IfSome result (λ number. (number < length ids.now.items) × (slice_index ids.now.items number ≡ term)) }
    ensures none { IfNone result (has term ids.now.items ≡ false) }
{
    match ids.binary_search(&term) {
        Ok(number) => Some(number),
        Err(_) => None,
    }
}

/// Does a new term, which is nothing where it is there.
fn push_new(parts: &Parts, made: &mut Made, term: u32) -> Result<(), Memory>
    requires indexed { IsIndexed (entries_of parts.now.leaves) parts.now.ids.items parts.now.starts.items parts.now.rows }
    requires terms { HasTerms (entries_of parts.now.leaves) parts.now.ids.items }
    requires next { made.old.number < length parts.now.ids.items → term < slice_index parts.now.ids.items made.old.number }
    requires rising { is_ascending made.old.ids.items ≡ true }
    requires up_to { AreUpTo term made.old.ids.items }
    ensures widening { OnOk result ((done : List ℕ)
        → IsWidening (entries_of parts.now.leaves) parts.now.ids.items made.old.number done made.old.ids.items made.old.starts.items →
        IsWidening (entries_of parts.now.leaves) parts.now.ids.items made.new.number (done ++ term ∷ []) made.new.ids.items made.new.starts.items) }
    ensures up_to { OnOk result (AreUpTo term made.new.ids.items) }
{
    if is_last(&made.ids, term) {
        return Ok(());
    }
    let start = start_at(&parts.starts, parts.rows.len(), made.number);
    push_term(made, term, start)
}

/// Whether the last of the ascending terms, which are all up to this one, is this one: whether it is there.
fn is_last(ids: &Vec<u32>, term: u32) -> bool
    requires rising { is_ascending ids.now.items ≡ true }
    requires up_to { AreUpTo term ids.now.items }
    ensures { result ≡ has term ids.now.items }
{
    let Some(last) = ids.len().checked_sub(1) else {
        return false;
    };
    ids[last] == term
}

/// Puts a term with the place of its first row after the last one.
fn push_term(made: &mut Made, term: u32, start: usize) -> Result<(), Memory>
    ensures ids { OnOk result (made.new.ids.items ≡ made.old.ids.items ++ term ∷ []) }
    ensures starts { OnOk result (made.new.starts.items ≡ made.old.starts.items ++ start ∷ []) }
    ensures number { OnOk result (made.new.number ≡ made.old.number) }
{
    push_number(&mut made.starts, start)?;
    made.ids.push(term)?;
    Ok(())
}

/// Takes the terms out that have no rows.
pub(crate) fn narrow(parts: &mut Parts) -> Result<(), Memory>
    requires indexed { IsIndexed (entries_of parts.old.leaves) parts.old.ids.items parts.old.starts.items parts.old.rows }
    ensures leaves { OnOk result (parts.new.leaves ≡ parts.old.leaves) }
    ensures indexed { OnOk result (IsIndexed (entries_of parts.old.leaves) parts.new.ids.items parts.new.starts.items parts.new.rows) }
    ensures ids { OnOk result (parts.new.ids.items ≡ filter (has_rows (entries_of parts.old.leaves)) parts.old.ids.items) }
{
    let alloc = *parts.ids.allocator();
    let total = parts.rows.len();
    let mut ids = Vec::new(alloc);
    let mut starts = Vec::new(alloc);
    for number in 0..parts.ids.len() {
        let first = parts.starts[number];
        let end = start_at(&parts.starts, total, number + 1);
        let stays = (first as usize) < end;
        push_if(&mut ids, parts.ids[number], stays)?;
        push_if(&mut starts, first, stays)?;
    }
    parts.ids = ids;
    parts.starts = starts;
    Ok(())
}

/// Puts a number after the last one where it stays.
fn push_if(numbers: &mut Vec<u32>, number: u32, stays: bool) -> Result<(), Memory>
    ensures { OnOk result (numbers.new.items ≡ numbers.old.items ++ cond stays (number ∷ []) []) }
{
    if stays {
        numbers.push(number)?;
    }
    Ok(())
}
