ghost use Rattle.std.specs.Prelude.{◌≡◌, ◌≤◌, ◌<◌, ◌+◌, ◌-◌, ◌^◌, true, drop, slice_get, option_map, IsTrue};
ghost use Rattle.std.specs.List.{prefix_len};
ghost use Rattle.std.specs.Option.{ForSome};
ghost use Rattle.ft_base.specs.declared.places.Breaks.{Breaks};
ghost use Rattle.ft_base.specs.Hits.{hit_at, hit_place, is_sorted};
ghost use Rattle.ft_base.specs.Places.{is_ascending};
ghost use Rattle.index_cursors.specs.SpanHits.{hits_in, is_before_both, places_up_to};

use crate::BreakView;
use crate::search::{Reached, first_from, first_place};
use ft_base::{Hit, Hits, Span, Steps};
use index_document::TermPlaces;
use std::marker::Model;
use std::sync::ledger::Ledger;

/// The places of a term in a span of a document, each as the hit of a single word, and a place in this list.
#[derive(Drop)]
pub struct Cursor<'v> {
    places: TermPlaces<'v>,
    breaks: BreakView<'v>,
    to: u32,
    first: usize,
    at: usize,
    // The place of the number `at`, where it is in the span: it is read once, however often the hit is asked for.
    word: Option<u32>,
}

impl<'v> Model for Cursor<'v> {
    ghost use Rattle.std.specs.Prelude.{◌≡◌, ◌≤◌, ◌<◌, ◌-◌, ◌^◌, length, slice_get, IsTrue};
    ghost use Rattle.std.specs.Option.{ForSome};
    ghost use Rattle.ft_base.specs.Hits.{HitPlace};
    ghost use Rattle.ft_base.specs.Places.{is_ascending};
    ghost use Rattle.index_cursors.specs.SpanHits.{cursor_place, places_up_to};

    ghost Value = { HitPlace };

    ghost view = { λ inside. cursor_place inside.breaks.breaks.now inside.to inside.first inside.at inside.places };

    ghost invariant = { λ inside. (inside.first ≤ inside.at) × (inside.at - inside.first ≤ length (places_up_to inside.to inside.first inside.places))
        × (inside.word ≡ slice_get (places_up_to inside.to inside.at inside.places) 0)
        × ForSome inside.word (λ place. place < 2 ^ 32 - 1)
        × IsTrue (is_ascending inside.places) };
}

impl<'v> Cursor<'v> {
    /// A cursor over the places of the span, at the first of them. Counts one step.
    pub fn new<L: Ledger>(
        places: TermPlaces<'v>,
        breaks: BreakView<'v>,
        span: Span,
        steps: &mut Steps<L>,
    ) -> Cursor<'v>
        ensures cursor { result ≡ hit_place (hits_in breaks.entry.breaks.now span places.entry) 0 }
        ensures counted { steps.new ≡ steps.old + 1 }
    {
        steps.tick();
        let first = first_place(&places, span.from);
        Cursor {
            places,
            breaks,
            to: span.to,
            first: first.number,
            at: first.number,
            word: first.place_before(span.to),
        }
    }

    /// Makes it the cursor that `new` makes, and counts one step. It searches on, or back, from the place at which it
    /// stands, so that a span near the last one of the same document is found soon.
    pub fn aim<L: Ledger>(
        &mut self,
        places: TermPlaces<'v>,
        breaks: BreakView<'v>,
        span: Span,
        steps: &mut Steps<L>,
    )
        ensures cursor { self.new ≡ hit_place (hits_in breaks.entry.breaks.now span places.entry) 0 }
        ensures counted { steps.new ≡ steps.old + 1 }
    {
        steps.tick();
        let first = first_from(&places, self.at, span.from);
        self.places = places;
        self.breaks = breaks;
        self.to = span.to;
        self.first = first.number;
        self.at = first.number;
        self.word = first.place_before(span.to);
    }

    /// The word of the hit at the place, and `None` exactly at the end of the list. No sentence and no paragraph is looked up.
    pub fn first_word(&self) -> Option<u32>
        ensures first { result ≡ option_map (λ hit. hit.from) (hit_at self.now) }
        ensures sorted { IsTrue (is_sorted self.now.hits) }
    {
        self.word
    }
}

impl<'v> Hits for Cursor<'v> {
    ghost stand = { λ cursor. cursor };

    ghost plain = { λ cursor. true };

    fn here(&self) -> Option<Hit> {
        match self.word {
            Some(place) => Some(self.breaks.hit(place)),
            None => None,
        }
    }

    fn next<L: Ledger>(&mut self, steps: &mut Steps<L>) {
        steps.tick();
        if self.at < self.places.len() {
            self.at += 1;
            self.word = Reached::at(&self.places, self.at).place_before(self.to);
        }
    }

    fn seek<L: Ledger>(&mut self, from: u32, steps: &mut Steps<L>) {
        let reached = walk(&self.places, self.at, from, self.to, steps);
        self.at = reached.number;
        self.word = reached.place_before(self.to);
    }

    fn rewind(&mut self) {
        self.at = self.first;
        self.word = Reached::at(&self.places, self.first).place_before(self.to);
    }
}

/// The first of the places that is in the span, and `None` where none is. No sentence and no paragraph is looked up.
pub fn first_word(places: &TermPlaces<'_>, span: Span) -> Option<u32>
    ensures { (breaks : Breaks) → result ≡ option_map (λ hit. hit.from) (hit_at (hit_place (hits_in breaks span places.now) 0)) }
{
    first_place(places, span.from).place_before(span.to)
}

/// The same. The search begins at the number `near` of a place, which may be any, and leaves there how many places are before the span:
/// who asks for one span after the other finds each of them soon.
pub fn first_word_near(places: &TermPlaces<'_>, near: &mut usize, span: Span) -> Option<u32>
    ensures { (breaks : Breaks) → result ≡ option_map (λ hit. hit.from) (hit_at (hit_place (hits_in breaks span places.now) 0)) }
{
    let first = first_from(places, *near, span.from);
    *near = first.number;
    first.place_before(span.to)
}

/// The first place, from that number on, that isn't before both positions. Counts a step for each place that it compares.
fn walk<L: Ledger>(
    places: &TermPlaces<'_>,
    start: usize,
    from: u32,
    to: u32,
    steps: &mut Steps<L>,
) -> Reached
    ensures walked { result.number ≡ start + prefix_len (is_before_both from to) (drop start places.now) }
    ensures place { result.place ≡ slice_get places.now result.number }
    ensures counted { steps.new ≤ steps.old + prefix_len (is_before_both from to) (drop start places.now) + 1 }
    ensures grown { steps.old ≤ steps.new }
{
    let len = places.len();
    let mut at = start;
    while at < len {
        steps.tick();
        let place = places.get(at);
        let reached = Reached {
            number: at,
            place: Some(place),
        };
        if place >= from {
            return reached;
        }
        if place >= to {
            return reached;
        }
        at += 1;
    }
    Reached {
        number: at,
        place: None,
    }
}
