// What no contract says: that memory suffices.
ghost use Rattle.std.specs.Prelude.{◌≡◌, ◌<◌, ◌∷◌, [], IfOk};
ghost use Rattle.index_document.specs.Terms.{leaf_ids};

use ft_base::{DocId, LeafId, Memory, Steps};
use index_document::{DocIndex, TermLeaf};
use std::alloc::Global;
use std::marker::Brand;
use std::sync::ledger::{Blank, Ledger};

// Puts a leaf with these words, where it fits.
fn put<L: Ledger>(
    alloc: Global,
    index: DocIndex,
    at: usize,
    leaf: LeafId,
    words: &[u32],
    rows: &mut Steps<L>,
) -> Result<DocIndex, Memory> {
    if at > index.leaf_count() {
        return Err(Memory);
    }
    match index.find_leaf(leaf) {
        Some(_) => Err(Memory),
        None => {
            let terms = Vec::from_slice(alloc, words)?;
            index.put_leaf(at, leaf, terms, rows)
        }
    }
}

// Takes a leaf, where there is one.
fn take<L: Ledger>(
    index: DocIndex,
    at: usize,
    rows: &mut Steps<L>,
) -> Result<(DocIndex, Vec<u32>), Memory> {
    if at >= index.leaf_count() {
        return Err(Memory);
    }
    index.take_leaf(at, rows)
}

// Whether the term stands at these places.
fn stands_at(index: &DocIndex, term: u32, wanted: &[u32]) -> bool {
    let places = index.places(term);
    if places.len() != wanted.len() {
        return false;
    }
    for number in 0..places.len() {
        if places.get(number) != wanted[number] {
            return false;
        }
    }
    true
}

// Whether these are the terms of the document.
fn has_terms(index: &DocIndex, wanted: &[u32]) -> bool {
    if index.term_count() != wanted.len() {
        return false;
    }
    for number in 0..index.term_count() {
        if index.term(number) != wanted[number] {
            return false;
        }
    }
    true
}

// Whether each of these terms stands at those places.
fn all_stand(index: &DocIndex, wanted: &[(u32, &[u32])]) -> bool {
    for (term, places) in wanted {
        if !stands_at(index, *term, places) {
            return false;
        }
    }
    true
}

// Whether the leaf is found at that place.
fn is_found(index: &DocIndex, leaf: LeafId, at: usize) -> bool {
    match index.find_leaf(leaf) {
        Some(number) => number == at,
        None => false,
    }
}

// Whether leaf 4 with the words 5, 3, 5 after leaf 9 with the words 3, 8 is what the index shows.
fn shows_two(index: &DocIndex) -> bool {
    if !all_stand(index, &[(3, &[1, 4]), (5, &[3, 5]), (8, &[2]), (4, &[])]) {
        return false;
    }
    if !has_terms(index, &[3, 5, 8]) {
        return false;
    }
    if !is_found(index, LeafId(4), 1) {
        return false;
    }
    index.token_count() == 5
}

// Whether the words are those of leaf 9, and the index shows leaf 4 alone.
fn shows_one(index: &DocIndex, words: &[u32]) -> bool {
    if words != [3, 8].as_slice() {
        return false;
    }
    if is_found(index, LeafId(9), 0) {
        return false;
    }
    has_terms(index, &[3, 5])
}

// The two leaves, the second first.
fn two_leaves<L: Ledger>(alloc: Global, rows: &mut Steps<L>) -> Result<DocIndex, Memory> {
    let index = put(
        alloc,
        DocIndex::empty(alloc, DocId(7)),
        0,
        LeafId(4),
        &[5, 3, 5],
        rows,
    )?;
    put(alloc, index, 0, LeafId(9), &[3, 8], rows)
}

// Whether the copy of an index with both leaves shows them.
fn copy_shows(index: &DocIndex) -> Result<bool, Memory> {
    let copy = index.copy()?;
    Ok(shows_two(&copy))
}

// Whether the second leaf alone is there, once the first was taken out.
fn shows_rest<L: Ledger>(index: DocIndex, rows: &mut Steps<L>) -> Result<bool, Memory> {
    let (rest, words) = take(index, 0, rows)?;
    Ok(shows_one(&rest, words.as_slice()))
}

// Whether the leaves are there that came one by one.
fn come_and_stand<L: Ledger>(alloc: Global, rows: &mut Steps<L>) -> Result<bool, Memory> {
    let index = two_leaves(alloc, rows)?;
    Ok(shows_two(&index))
}

// Whether a copy shows them too.
fn come_and_copy<L: Ledger>(alloc: Global, rows: &mut Steps<L>) -> Result<bool, Memory> {
    let index = two_leaves(alloc, rows)?;
    copy_shows(&index)
}

// Whether one of them goes.
fn come_and_go<L: Ledger>(alloc: Global, rows: &mut Steps<L>) -> Result<bool, Memory> {
    shows_rest(two_leaves(alloc, rows)?, rows)
}

// A leaf with these words.
fn leaf(alloc: Global, number: u32, words: &[u32]) -> Result<TermLeaf, Memory>
    ensures { IfOk result (λ made. made.id ≡ number) }
{
    TermLeaf::new(LeafId(number), Vec::from_slice(alloc, words)?)
}

// The same leaves in a vector.
fn leaf_list(alloc: Global) -> Result<Vec<TermLeaf>, Memory>
    ensures { IfOk result (λ leaves. leaf_ids leaves.items ≡ 9 ∷ 4 ∷ []) }
{
    let first = leaf(alloc, 9, &[3, 8])?;
    let second = leaf(alloc, 4, &[5, 3, 5])?;
    let mut leaves = Vec::new(alloc);
    leaves.push(first)?;
    leaves.push(second)?;
    Ok(leaves)
}

// Whether they are there where they came at once.
fn come_at_once<L: Ledger>(alloc: Global, rows: &mut Steps<L>) -> Result<bool, Memory> {
    let leaves = leaf_list(alloc)?;
    let index = DocIndex::from_leaves(alloc, DocId(7), leaves, rows)?;
    Ok(shows_two(&index))
}

// All of these.
fn all_work<L: Ledger>(alloc: Global, blank: Blank) -> Result<bool, Memory>
    requires name { blank.name ≡ L.name }
    requires parts { blank.parts ≡ L.parts }
    requires whole { 0 < blank.parts }
{
    let mut rows = Steps::<L>::new(blank);
    let stand = come_and_stand(alloc, &mut rows)?;
    let copy = come_and_copy(alloc, &mut rows)?;
    let go = come_and_go(alloc, &mut rows)?;
    let once = come_at_once(alloc, &mut rows)?;
    Ok(stand & copy & go & once)
}

#[test]
fn leaves_come_and_go(rt: HostRuntime) {
    assert!(rt; all_work::<Brand>(rt.alloc(), Blank::new(1)) == Ok(true));
}
