// What no contract says: that the count runs, over sources of one hit each.
ghost use Rattle.std.specs.Prelude.{◌≡◌, ◌<◌, ◌∷◌, [], if◌then◌else◌, true};
ghost use Rattle.ft_base.specs.Hits.{hit_place};

use ft_base::{FirstWords, Hit, Hits, Span, Steps};
use place_merges::{Item, Variant, count_places};
use std::alloc::{AllocError, Global};
use std::marker::Brand;
use std::sync::ledger::{Blank, Ledger};

// A list of one hit, and whether it is passed.
#[derive(Drop)]
struct OneHit {
    hit: Hit,
    passed: bool,
}

impl Hits for OneHit {
    ghost stand = { λ one. hit_place (one.hit ∷ []) (if one.passed then 1 else 0) };

    ghost plain = { λ one. true };

    fn here(&self) -> Option<Hit> {
        if self.passed { None } else { Some(self.hit) }
    }

    fn next<L: Ledger>(&mut self, steps: &mut Steps<L>) {
        steps.tick();
        self.passed = true;
    }

    fn seek<L: Ledger>(&mut self, from: u32, steps: &mut Steps<L>) {
        steps.tick();
        if self.hit.from < from {
            self.passed = true;
        }
    }

    fn rewind(&mut self) {
        self.passed = false;
    }
}

impl FirstWords for OneHit {
    fn first_word(&self) -> Option<u32> {
        if self.passed {
            None
        } else {
            Some(self.hit.from)
        }
    }
}

// The hit of one word.
fn one_hit(place: u32) -> OneHit {
    OneHit {
        hit: Hit {
            query: 1,
            from: place,
            to: place,
            sent_from: 1,
            sent_to: 1,
            para_from: 1,
            para_to: 1,
            whole: true,
        },
        passed: false,
    }
}

// A word at one of the places.
fn at(alloc: Global, places: &[u32]) -> Result<Item<OneHit>, AllocError> {
    let mut sources = Vec::new(alloc);
    for place in places {
        sources.push(one_hit(*place))?;
    }
    Ok(Item::Of(sources))
}

// Two words, one after the other. The second leads.
fn two_words(
    alloc: Global,
    first: Item<OneHit>,
    second: Item<OneHit>,
    counts: bool,
) -> Result<Variant<OneHit>, AllocError> {
    let mut items = Vec::new(alloc);
    items.push(first)?;
    items.push(second)?;
    Ok(Variant {
        items,
        lead: 1,
        counts,
    })
}

// `a b`, or `b` and any word, in `a b b a x a b x`; `a` and any word doesn't count.
fn variants(alloc: Global) -> Result<Vec<Variant<OneHit>>, AllocError> {
    let mut all = Vec::new(alloc);
    all.push(two_words(alloc, at(alloc, &[1, 4, 6])?, at(alloc, &[2, 3, 7])?, true)?)?;
    all.push(two_words(alloc, at(alloc, &[2, 3, 7])?, Item::Any, true)?)?;
    all.push(two_words(alloc, at(alloc, &[1, 4, 6])?, Item::Any, false)?)?;
    Ok(all)
}

// How many places there are in the span, at most so many.
fn counted<L: Ledger>(
    alloc: Global,
    to: u32,
    most: u64,
    steps: &mut Steps<L>,
) -> Result<u64, AllocError> {
    let mut variants = variants(alloc)?;
    Ok(count_places(&mut variants, Span { from: 1, to }, most, steps))
}

// The counts in spans with and without the last word, and up to two.
fn counts<L: Ledger>(alloc: Global, blank: Blank) -> Result<(u64, u64, u64), AllocError>
    requires name { blank.name ≡ L.name }
    requires parts { blank.parts ≡ L.parts }
    requires whole { 0 < blank.parts }
{
    let mut steps = Steps::<L>::new(blank);
    let all = counted(alloc, 9, 10, &mut steps)?;
    let fewer = counted(alloc, 8, 10, &mut steps)?;
    let two = counted(alloc, 9, 2, &mut steps)?;
    Ok((all, fewer, two))
}

#[test]
fn places_are_counted(rt: HostRuntime) {
    assert!(rt; counts::<Brand>(rt.alloc(), Blank::new(1)) == Ok((5, 4, 2)));
}
