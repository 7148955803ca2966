// What no contract says: that the calls run, over the places of an index.
ghost use Rattle.std.specs.Prelude.{◌≡◌, ◌<◌};

use ft_base::{Breaks, DocId, Hit, Hits, LeafId, Memory, Places, Span, Steps};
use index_cursors::{BreakView, Cursor, Every};
use index_document::DocIndex;
use std::alloc::Global;
use std::marker::Brand;
use std::sync::ledger::{Blank, Ledger};

// Two places.
fn two_places(alloc: Global, first: u32, second: u32) -> Result<Places, Memory>
    requires { first < second }
{
    let mut places = Places::new(alloc);
    places.push(first)?;
    places.push(second)?;
    Ok(places)
}

// The second sentence starts at the fourth word, the second paragraph at the fifth.
fn breaks_of_words(alloc: Global) -> Result<Breaks, Memory> {
    let sentences = two_places(alloc, 1, 4)?;
    let paragraphs = two_places(alloc, 1, 5)?;
    Ok(Breaks {
        sentences,
        paragraphs,
    })
}

// The index of a document of six words.
fn index_of_words<L: Ledger>(alloc: Global, rows: &mut Steps<L>) -> Result<DocIndex, Memory> {
    let terms = Vec::from_slice(alloc, &[5, 3, 5, 5, 8, 5])?;
    DocIndex::empty(alloc, DocId(7)).put_leaf(0, LeafId(4), terms, rows)
}

// Whether it is the hit of the word at that place, in that sentence and that paragraph.
fn is_hit(hit: Hit, wanted: (u32, u32, u32)) -> bool {
    let (place, sentence, paragraph) = wanted;
    hit == Hit {
        query: 0,
        from: place,
        to: place,
        sent_from: sentence,
        sent_to: sentence,
        para_from: paragraph,
        para_to: paragraph,
        whole: true,
    }
}

// Whether the hit at the place is this one; moves one hit on.
fn passes<H: Hits, L: Ledger>(hits: &mut H, wanted: (u32, u32, u32), steps: &mut Steps<L>) -> bool {
    match hits.here() {
        Some(hit) => {
            hits.next(steps);
            is_hit(hit, wanted)
        }
        None => false,
    }
}

// Whether the hits from the place on are these.
fn are_left<H: Hits, L: Ledger>(
    hits: &mut H,
    wanted: &[(u32, u32, u32)],
    steps: &mut Steps<L>,
) -> bool {
    for hit in wanted {
        if !passes(hits, *hit, steps) {
            return false;
        }
    }
    hits.here().is_none()
}

// Whether a cursor over the places of a term in a span has these, from the first to the end, from the fourth word on,
// and from the first again; and those of a later and of an earlier span, once it is aimed there.
fn cursor_moves<L: Ledger>(index: &DocIndex, breaks: &Breaks, steps: &mut Steps<L>) -> bool {
    let view = BreakView::new(breaks);
    let mut cursor = Cursor::new(index.places(5), view, Span { from: 1, to: 6 }, steps);
    let all = are_left(&mut cursor, &[(1, 1, 1), (3, 1, 1), (4, 2, 1)], steps);
    cursor.rewind();
    cursor.seek(4, steps);
    let sought = are_left(&mut cursor, &[(4, 2, 1)], steps);
    cursor.aim(index.places(5), view, Span { from: 5, to: 7 }, steps);
    let later = are_left(&mut cursor, &[(6, 2, 2)], steps);
    cursor.aim(index.places(5), view, Span { from: 2, to: 4 }, steps);
    let earlier = are_left(&mut cursor, &[(3, 1, 1)], steps);
    all & sought & later & earlier
}

// Whether all places of a span are there, from the first to the end, and from the fifth word on.
fn every_moves<L: Ledger>(breaks: &Breaks, steps: &mut Steps<L>) -> bool {
    let mut every = Every::new(BreakView::new(breaks), Span { from: 3, to: 6 }, steps);
    let all = are_left(&mut every, &[(3, 1, 1), (4, 2, 1), (5, 2, 2)], steps);
    every.rewind();
    every.seek(5, steps);
    all & are_left(&mut every, &[(5, 2, 2)], steps)
}

// All of these.
fn all_work<L: Ledger>(alloc: Global, blank: Blank) -> Result<bool, Memory>
    requires name { blank.name ≡ L.name }
    requires parts { blank.parts ≡ L.parts }
    requires whole { 0 < blank.parts }
{
    let mut steps = Steps::<L>::new(blank);
    let index = index_of_words(alloc, &mut steps)?;
    let breaks = breaks_of_words(alloc)?;
    let cursor = cursor_moves(&index, &breaks, &mut steps);
    let every = every_moves(&breaks, &mut steps);
    Ok(cursor & every)
}

#[test]
fn hits_are_passed(rt: HostRuntime) {
    assert!(rt; all_work::<Brand>(rt.alloc(), Blank::new(1)) == Ok(true));
}
