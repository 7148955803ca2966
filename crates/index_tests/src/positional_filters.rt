// What is found in another way than its definition says: neighbours in the text, words that are covered, one scope of
// all, the joined hit.
use ft_base::{Filter, Hit, Range, Span, Unit};
use std::process::Abort;
use window_distance::{Includes, join, passes};

// A phrase from one word to another, in the sentence of that number.
fn hit(query: u32, from: u32, to: u32, sentence: u32) -> Hit {
    Hit {
        query,
        from,
        to,
        sent_from: sentence,
        sent_to: sentence,
        para_from: 1,
        para_to: 1,
        whole: true,
    }
}

// Whether a filter keeps a Match in an item of nine words.
fn expect(rt: &impl Abort, filter: Filter, hits: &[Hit], wanted: bool) {
    let item = Span { from: 1, to: 10 };
    assert!(rt; passes(&filter, &Includes::of(hits), item) == wanted);
}

#[test]
fn neighbours_stand_in_the_order_of_the_text(rt: HostRuntime) {
    let hits = [hit(1, 5, 5, 1), hit(2, 1, 3, 1), hit(3, 1, 1, 1)];
    expect(
        &rt,
        Filter::Distance(Range::AtMost(1), Unit::Words),
        &hits,
        true,
    );
    expect(
        &rt,
        Filter::Distance(Range::AtMost(0), Unit::Words),
        &hits,
        false,
    );
}

#[test]
fn words_are_covered_by_hits_in_any_order(rt: HostRuntime) {
    let hits = [hit(1, 7, 9, 1), hit(2, 4, 6, 1), hit(3, 1, 3, 1)];
    expect(&rt, Filter::EntireContent, &hits, true);
    expect(&rt, Filter::EntireContent, &hits[1..], false);
}

#[test]
fn all_hits_share_the_sentence_of_the_first(rt: HostRuntime) {
    let hits = [hit(1, 2, 2, 3), hit(2, 1, 1, 3), hit(3, 4, 4, 4)];
    expect(&rt, Filter::SameSentence, &hits[..2], true);
    expect(&rt, Filter::SameSentence, &hits, false);
}

#[test]
fn the_joined_hit_has_no_hole(rt: HostRuntime) {
    let hits = [hit(7, 3, 4, 2), hit(1, 1, 2, 1), hit(2, 6, 6, 2)];
    let joined = join(&Includes::of(&hits[..2]));
    let mut wanted = hit(7, 1, 4, 1);
    wanted.sent_to = 2;
    assert!(rt; joined == Some(wanted));
    wanted.to = 6;
    wanted.whole = false;
    assert!(rt; join(&Includes::of(&hits)) == Some(wanted));
}
