ghost use Rattle.std.specs.Prelude.{◌≡◌, ◌≤◌, ◌<◌, ◌+◌, ◌^◌, ◌++◌, ◌∷◌, [], List, drop, length, map, slice_index, slice_index_or, IfOk, IsFalse, IsTrue, OnOk};
ghost use Rattle.postings.specs.declared.row.Row.{Row};
ghost use Rattle.shared_list.specs.Blocks.{joined, start_of, starts_from};
ghost use Rattle.index_document.specs.Terms.{leaf_ids};
ghost use Rattle.index_document.specs.Rows.{row_of};
ghost use Rattle.index_document.specs.steps.Groups.{group, with_rows, without_rows};
ghost use Rattle.index_document.specs.steps.Directory.{IsAround};
ghost use Rattle.index_document.specs.declared.entry.Entry.{Entry};

use crate::entry::Entry;
use crate::leaves::Leaves;
use crate::parts::Parts;
use ft_base::{Memory, Steps};
use postings::PostingList;
use std::sync::ledger::Ledger;

/// A term with its rows among all rows: from one place up to another.
#[derive(Clone, Copy, PartialEq, Eq)]
pub struct Run {
    pub term: u32,
    pub first: usize,
    pub end: usize,
}

/// The place of the first row of the term of that number, or that after the last row.
pub(crate) fn start_at(starts: &Vec<u32>, total: usize, number: usize) -> usize
    ensures { (runs : List (List Row)) → starts.now.items ≡ starts_from 0 runs → total ≡ length (joined runs) → result ≡ start_of runs number }
{
    if number < starts.len() {
        return starts[number] as usize;
    }
    total
}

/// The term of that number with its rows, where there were so many rows when the starts were told.
pub(crate) fn run_at(parts: &Parts, total: usize, number: usize) -> Run
    requires { number < length parts.now.ids.items }
    ensures term { result.term ≡ slice_index parts.now.ids.items number }
    ensures first { (runs : List (List Row)) → parts.now.starts.items ≡ starts_from 0 runs → total ≡ length (joined runs)
        → result.first ≡ start_of runs number }
    ensures end { (runs : List (List Row)) → parts.now.starts.items ≡ starts_from 0 runs → total ≡ length (joined runs)
        → result.end ≡ start_of runs (number + 1) }
    ensures fits { result.end < 2 ^ 64 }
{
    Run {
        term: parts.ids[number],
        first: start_at(&parts.starts, total, number),
        end: start_at(&parts.starts, total, number + 1),
    }
}

/// Whether the next entry is of the term.
fn is_next(entries: &Vec<Entry>, next: usize, term: u32) -> bool
    ensures there { IsTrue result → next < length entries.now.items }
    ensures yes { IsTrue result → (d : Entry)
        → group term (drop next entries.now.items) ≡ slice_index_or entries.now.items next d ∷ group term (drop (next + 1) entries.now.items) }
    ensures no { IsFalse result → group term (drop next entries.now.items) ≡ [] }
{
    if next >= entries.len() {
        return false;
    }
    entries[next].term == term
}

/// The place after those rows of a run that are of leaves before that place.
fn prefix_end(leaves: &Leaves, rows: &PostingList, at: usize, run: Run) -> usize
    ensures within { result ≤ length rows.now }
    ensures place { (before prefix back suffix : List Row)
        → IsAround (leaf_ids leaves.now.leaves) at run.first run.end rows.now before prefix back suffix → result ≡ length before + length prefix }
{
    let mut high = run.end.min(rows.len());
    let mut low = run.first.min(high);
    while low < high {
        let middle = low + (high - low) / 2;
        if leaves.is_before(rows.get(middle).leaf, at) {
            low = middle + 1;
        } else {
            high = middle;
        }
    }
    low
}

/// Puts the rows of the next entries, as many as are of the term, one after the other, the first of them at the
/// place. Answers which entry comes next.
fn put_group<L: Ledger>(
    rows: &mut PostingList,
    entries: &Vec<Entry>,
    next: usize,
    term: u32,
    place: usize,
    steps: &mut Steps<L>,
) -> Result<usize, Memory>
    requires { place ≤ length rows.old }
    ensures next { IfOk result (λ end. end ≡ next + length (group term (drop next entries.now.items))) }
    ensures rows { OnOk result (rows.new ≡ with_rows rows.old place (map row_of (group term (drop next entries.now.items)))) }
    ensures counted { OnOk result (steps.new ≡ steps.old + length (group term (drop next entries.now.items))) }
    ensures at_most { steps.new ≤ steps.old + length (group term (drop next entries.now.items)) }
{
    let mut end = next;
    let mut at = place;
    while is_next(entries, end, term) {
        rows.put_row(entries[end].row, at, steps)?;
        let _rows = rows.len();
        end += 1;
        at += 1;
    }
    Ok(end)
}

/// Takes out as many rows as the next entries are of the term, each at the place, from which on there are that many. Answers which
/// entry comes next.
fn take_group<L: Ledger>(
    rows: &mut PostingList,
    entries: &Vec<Entry>,
    next: usize,
    term: u32,
    place: usize,
    steps: &mut Steps<L>,
) -> Result<usize, Memory>
    requires { place + length (group term (drop next entries.now.items)) ≤ length rows.old }
    ensures next { IfOk result (λ end. end ≡ next + length (group term (drop next entries.now.items))) }
    ensures rows { OnOk result (rows.new ≡ without_rows rows.old place (length (group term (drop next entries.now.items)))) }
    ensures counted { OnOk result (steps.new ≡ steps.old + length (group term (drop next entries.now.items))) }
    ensures at_most { steps.new ≤ steps.old + length (group term (drop next entries.now.items)) }
{
    let mut end = next;
    while is_next(entries, end, term) {
        rows.take_row(place, steps)?;
        end += 1;
    }
    Ok(end)
}

/// Puts the rows of the next entries, as many as are of the term, among those of its run: after the rows of leaves
/// before that place. Answers which entry comes next.
pub(crate) fn put_term<L: Ledger>(
    leaves: &Leaves,
    rows: &mut PostingList,
    at: usize,
    run: Run,
    entries: &Vec<Entry>,
    next: usize,
    steps: &mut Steps<L>,
) -> Result<usize, Memory>
    ensures next { IfOk result (λ end. end ≡ next + length (group run.term (drop next entries.now.items))) }
    ensures rows { OnOk result ((before prefix back suffix : List Row)
        → IsAround (leaf_ids leaves.now.leaves) at run.first run.end rows.old before prefix back suffix →
        rows.new ≡ before ++ (prefix ++ (map row_of (group run.term (drop next entries.now.items)) ++ (back ++ suffix)))) }
    ensures counted { OnOk result (steps.new ≡ steps.old + length (group run.term (drop next entries.now.items))) }
    ensures at_most { steps.new ≤ steps.old + length (group run.term (drop next entries.now.items)) }
{
    if !is_next(entries, next, run.term) {
        return Ok(next);
    }
    let place = prefix_end(leaves, rows, at, run);
    put_group(rows, entries, next, run.term, place, steps)
}

/// Takes the rows of the next entries, as many as are of the term, out of its run, in which they stand after the rows of leaves before
/// that place. Answers which entry comes next.
pub(crate) fn take_term<L: Ledger>(
    leaves: &Leaves,
    rows: &mut PostingList,
    at: usize,
    run: Run,
    entries: &Vec<Entry>,
    next: usize,
    steps: &mut Steps<L>,
) -> Result<usize, Memory>
    requires { (before : List Row) × ((prefix : List Row) × ((back : List Row) × ((suffix : List Row)
        × IsAround (leaf_ids leaves.now.leaves) at run.first run.end rows.old before prefix
        (map row_of (group run.term (drop next entries.now.items)) ++ back) suffix))) }
    ensures next { IfOk result (λ end. end ≡ next + length (group run.term (drop next entries.now.items))) }
    ensures rows { OnOk result ((before prefix back suffix : List Row) →
        IsAround (leaf_ids leaves.now.leaves) at run.first run.end rows.old before prefix
        (map row_of (group run.term (drop next entries.now.items)) ++ back) suffix →
        rows.new ≡ before ++ (prefix ++ (back ++ suffix))) }
    ensures counted { OnOk result (steps.new ≡ steps.old + length (group run.term (drop next entries.now.items))) }
    ensures at_most { steps.new ≤ steps.old + length (group run.term (drop next entries.now.items)) }
{
    if !is_next(entries, next, run.term) {
        return Ok(next);
    }
    let place = prefix_end(leaves, rows, at, run);
    take_group(rows, entries, next, run.term, place, steps)
}
