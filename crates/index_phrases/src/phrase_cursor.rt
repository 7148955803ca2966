//! A phrase over a version of the index.

ghost use Rattle.std.specs.Prelude.{◌≡◌, map};
ghost use Rattle.std.specs.List.{All};
ghost use Rattle.std.specs.Option.{ForSome};
ghost use Rattle.index_phrases.specs.steps.Aiming.{AreThere, IsTarget, sizes_of, variant_words, wanted_size};

use crate::aiming::aim_variants;
use crate::finding::found_after;
use crate::found::Found;
use crate::part::part_of;
use crate::target::Target;
use crate::word_terms::WordTerms;
use ft_base::{DocId, Hit, Span, Steps};
use ft_operators::{Bounds, PhraseHits};
use index_versions::{TermCursor, Version};
use place_merges::{Spot, Variant};
use std::sync::ledger::Ledger;

/// The hits of a phrase in a span of a document of a version, and a place in their list. Which words its variants have is said
/// by terms of the version, and each term has a cursor of its own.
///
/// It is made once and aimed at one span after the other. Each term keeps the document that was asked last, so the spans of one
/// document are best asked together. No call takes memory.
#[derive(Drop)]
pub struct PhraseCursor<'v> {
    version: &'v Version,
    number: u32,
    terms: Vec<Vec<WordTerms<'v>>>,
    variants: Vec<Variant<TermCursor<'v>>>,
    target: Option<Target<'v>>,
    found: Option<Found<'v>>,
    ghost sized: { map sizes_of variants.items ≡ map (map wanted_size) (map variant_words terms.items) },
    ghost there: { All (All (AreThere version.now)) (map variant_words terms.items) },
    ghost known: { ForSome target (IsTarget version.now) },
}

impl<'v> PhraseCursor<'v> {
    ghost use Rattle.std.specs.Prelude.{◌≡◌, ◌≤◌, map};
    ghost use Rattle.std.specs.List.{All};
    ghost use Rattle.index_phrases.specs.Cursors.{in_part, new_state, state_of};
    ghost use Rattle.index_phrases.specs.steps.Aiming.{AreThere, IsTarget, sizes_of, variant_words, wanted_size};

    /// The phrase of that number in its selection, which was aimed nowhere yet. The terms say what the words of each variant may
    /// be, and for each word the variant has as many cursors as terms.
    pub fn new(
        version: &'v Version,
        number: u32,
        terms: Vec<Vec<WordTerms<'v>>>,
        variants: Vec<Variant<TermCursor<'v>>>,
    ) -> PhraseCursor<'v>
        requires sized { map sizes_of variants.items ≡ map (map wanted_size) (map variant_words terms.items) }
        requires there { All (All (AreThere version.now)) (map variant_words terms.items) }
        ensures { state_of result ≡ new_state version.now number (map variant_words terms.entry.items) }
    {
        PhraseCursor {
            version,
            number,
            terms,
            variants,
            target: None,
            found: None,
        }
    }

    /// Aims the cursors at a part of the span, and goes to the first hit there.
    fn go_to<L: Ledger>(&mut self, target: &Target<'v>, part: Span, steps: &mut Steps<L>)
        requires known { IsTarget self.old.version.now target.now }
        requires inside { target.now.span.from ≤ part.from }
        ensures moved { state_of self.new ≡ in_part self.old target.now part }
        ensures grown { steps.old ≤ steps.new }
    {
        let aimed = Target {
            span: part,
            ..*target
        };
        aim_variants(&aimed, &mut self.terms, &mut self.variants, steps);
        let prefix = Spot {
            place: part.from,
            words: 0,
        };
        self.found = found_after(
            &mut self.variants,
            self.number,
            target,
            None,
            part.to,
            prefix,
            steps,
        );
        self.target = Some(*target);
    }
}

impl<'v> PhraseHits for PhraseCursor<'v> {
    ghost use Rattle.index_phrases.specs.Cursors.{state_of};

    ghost state = { λ cursor. state_of cursor };

    fn here(&self) -> Option<Hit> {
        match self.found {
            Some(found) => Some(found.hit),
            None => None,
        }
    }

    fn first<L: Ledger>(&mut self, steps: &mut Steps<L>) {
        match self.target {
            Some(target) => self.go_to(&target, target.span, steps),
            None => self.found = None,
        }
    }

    fn first_in<L: Ledger>(&mut self, bounds: &Bounds, steps: &mut Steps<L>) {
        match self.target {
            Some(target) => {
                let part = part_of(bounds, self.number, &target);
                self.go_to(&target, part, steps);
            }
            None => self.found = None,
        }
    }

    fn next<L: Ledger>(&mut self, steps: &mut Steps<L>) {
        match self.found {
            Some(found) => {
                self.found = found_after(
                    &mut self.variants,
                    self.number,
                    &found.target,
                    Some(found.first),
                    found.to,
                    found.spot,
                    steps,
                );
            }
            None => {}
        }
    }

    fn aim<L: Ledger>(&mut self, doc: DocId, span: Span, steps: &mut Steps<L>) {
        let version = self.version;
        let breaks = version.breaks(doc);
        self.go_to(&Target { doc, span, breaks }, span, steps);
    }
}
