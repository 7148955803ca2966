// What no contract says: that memory suffices.
ghost use Rattle.std.specs.Prelude.{◌≡◌, ◌<◌};

use ft_base::{DocId, LeafId, Memory, Steps};
use index_counts::DocumentCounts;
use index_document::DocIndex;
use std::alloc::Global;
use std::marker::Brand;
use std::sync::ledger::{Blank, Ledger};

// The index of a document with these words.
fn index_of<L: Ledger>(
    alloc: Global,
    doc: u32,
    words: &[u32],
    rows: &mut Steps<L>,
) -> Result<DocIndex, Memory> {
    let terms = Vec::from_slice(alloc, words)?;
    DocIndex::empty(alloc, DocId(doc)).put_leaf(0, LeafId(0), terms, rows)
}

// Whether the terms have these counts.
fn are_counted(counts: &DocumentCounts, wanted: &[(u32, u32)]) -> bool {
    for (term, count) in wanted {
        if counts.count(*term) != *count {
            return false;
        }
    }
    true
}

// The counts once the document has come, and once it has gone again.
fn come_and_go(
    counts: DocumentCounts,
    index: &DocIndex,
) -> Result<(DocumentCounts, Vec<u32>), Memory> {
    counts.shifted(index)?.lowered(index)
}

// Whether a document that comes to another one and goes leaves the counts of that one, and its own terms fall.
fn shows_one(counts: &DocumentCounts, second: &DocIndex) -> Result<bool, Memory> {
    let (rest, fallen) = come_and_go(counts.copy()?, second)?;
    Ok(
        fallen.as_slice() == [3, 1700].as_slice()
            && are_counted(&rest, &[(2, 1), (3, 0), (600, 1), (1700, 0)]),
    )
}

// Whether both documents count, each once for a term.
fn shows_both(counts: &DocumentCounts, second: &DocIndex) -> Result<bool, Memory> {
    let both = counts.copy()?.shifted(second)?;
    Ok(are_counted(
        &both,
        &[(0, 0), (2, 1), (3, 1), (600, 2), (1700, 1), (1701, 0)],
    ))
}

// The counts of one document.
fn counts_of_first<L: Ledger>(
    alloc: Global,
    rows: &mut Steps<L>,
) -> Result<DocumentCounts, Memory> {
    let first = index_of(alloc, 4, &[600, 2, 600], rows)?;
    DocumentCounts::empty(alloc).shifted(&first)
}

// Whether a second one counts beside it, and goes.
fn second_works(counts: &DocumentCounts, second: &DocIndex) -> Result<bool, Memory> {
    let both = shows_both(counts, second)?;
    let one = shows_one(counts, second)?;
    Ok(both & one)
}

// The same where the second one is made.
fn both_work<L: Ledger>(
    alloc: Global,
    counts: &DocumentCounts,
    rows: &mut Steps<L>,
) -> Result<bool, Memory> {
    let second = index_of(alloc, 9, &[1700, 600, 3], rows)?;
    second_works(counts, &second)
}

// All of these.
fn all_work<L: Ledger>(alloc: Global, blank: Blank) -> Result<bool, Memory>
    requires name { blank.name ≡ L.name }
    requires parts { blank.parts ≡ L.parts }
    requires whole { 0 < blank.parts }
{
    let mut rows = Steps::<L>::new(blank);
    let counts = counts_of_first(alloc, &mut rows)?;
    let works = both_work(alloc, &counts, &mut rows)?;
    let kept = are_counted(&counts, &[(2, 1), (3, 0), (600, 1), (1700, 0)]);
    Ok(works & kept)
}

#[test]
fn documents_come_and_go(rt: HostRuntime) {
    assert!(rt; all_work::<Brand>(rt.alloc(), Blank::new(1)) == Ok(true));
}
