// What no contract says: that the walk runs, over phrases of one hit each.
ghost use Rattle.std.specs.Prelude.{◌≡◌, ◌<◌, ◌∷◌, [], if◌then◌else◌, true};

use ft_base::{DocId, Filter, Hit, Memory, Span, Steps, Unit};
use ft_operators::{Bounds, PhraseHits, Tuples};
use std::alloc::Global;
use std::marker::Brand;
use std::sync::ledger::{Blank, Ledger};

// A list of one hit, wherever it is aimed, and whether the hit is passed.
#[derive(Drop)]
struct OneHit {
    hit: Hit,
    passed: bool,
}

impl PhraseHits for OneHit {
    ghost state = { λ one. record {
      aims = record { may = λ doc span. true; hits = λ doc span. one.hit ∷ [] };
      hits = one.hit ∷ [];
      rest = if one.passed then [] else one.hit ∷ [];
    } };

    fn here(&self) -> Option<Hit> {
        if self.passed { None } else { Some(self.hit) }
    }

    fn first<L: Ledger>(&mut self, _steps: &mut Steps<L>) {
        self.passed = false;
    }

    fn first_in<L: Ledger>(&mut self, bounds: &Bounds, _steps: &mut Steps<L>) {
        self.passed = !bounds.has(&self.hit);
    }

    fn next<L: Ledger>(&mut self, _steps: &mut Steps<L>) {
        self.passed = true;
    }

    fn aim<L: Ledger>(&mut self, _doc: DocId, _span: Span, _steps: &mut Steps<L>) {
        self.passed = false;
    }
}

// The hit of a phrase of that number at one word.
fn one(alloc: Global, query: u32, place: u32) -> Result<Tuples<OneHit>, Memory> {
    let hit = Hit {
        query,
        from: place,
        to: place,
        sent_from: 1,
        sent_to: 1,
        para_from: 1,
        para_to: 1,
        whole: true,
    };
    Tuples::one(alloc, OneHit { hit, passed: false })
}

// `("a" ftand "b") window .. words`, or of `"a" not in "b"` where they are apart, in `a x b`.
fn made(alloc: Global, apart: bool, size: u32) -> Result<Tuples<OneHit>, Memory> {
    let left = one(alloc, 1, 1)?;
    let right = one(alloc, 2, 3)?;
    let sides = if apart {
        Tuples::mild_not(alloc, left, right)?
    } else {
        Tuples::both(alloc, left, right)?
    };
    Tuples::filtered(alloc, sides, Filter::Window(size, Unit::Words))
}

// How many ways there are.
fn way_count<P: PhraseHits + Drop, L: Ledger>(tuples: &mut Tuples<P>, steps: &mut Steps<L>) -> u64 {
    let mut count = 0_u64;
    let mut there = tuples.first(steps);
    while there {
        count = count.saturating_add(1);
        there = tuples.next(steps);
    }
    count
}

// How many ways there are through a window of that size.
fn counted<L: Ledger>(
    alloc: Global,
    apart: bool,
    size: u32,
    steps: &mut Steps<L>,
) -> Result<u64, Memory> {
    let mut tuples = made(alloc, apart, size)?;
    Ok(way_count(&mut tuples, steps))
}

// A window of three words, in three places; a way of the left side that stands out, and goes through two windows.
fn counts<L: Ledger>(alloc: Global, blank: Blank) -> Result<(u64, u64, u64), Memory>
    requires name { blank.name ≡ L.name }
    requires parts { blank.parts ≡ L.parts }
    requires whole { 0 < blank.parts }
{
    let mut steps = Steps::<L>::new(blank);
    let narrow = counted(alloc, false, 2, &mut steps)?;
    let wide = counted(alloc, false, 5, &mut steps)?;
    let alone = counted(alloc, true, 2, &mut steps)?;
    Ok((narrow, wide, alone))
}

#[test]
fn windows_are_counted(rt: HostRuntime) {
    assert!(rt; counts::<Brand>(rt.alloc(), Blank::new(1)) == Ok((0, 3, 2)));
}
