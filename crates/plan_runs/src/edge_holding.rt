//! Whether a phrase stands at an edge of a span: its words are asked for at the places where they would stand there, and a step is counted
//! for each term that is looked up for it.

ghost use Rattle.std.specs.Prelude.{◌≡◌, ◌+◌, ◌<◌, ◌≤◌, length, map};
ghost use Rattle.std.specs.List.{All, list_any};
ghost use Rattle.index_phrases.specs.Phrases.{wanted_at};
ghost use Rattle.index_phrases.specs.steps.Aiming.{AreThere, variant_words};
ghost use Rattle.place_merges.specs.Places.{fits, stands_at};
ghost use Rattle.spot_merges.specs.Edges as spec;

use crate::asked_place::AskedPlace;
use crate::reading::seek_in;
use ft_base::{Span, Steps};
use index_phrases::WordTerms;
use spot_merges::{Edge, edge_place};
use std::sync::ledger::Ledger;

/// Whether one of the variants stands at that edge.
pub(crate) fn stands_at_edge<L: Ledger>(
    place: &AskedPlace<'_>,
    edge: Edge,
    variants: &mut Vec<Vec<WordTerms<'_>>>,
    moves: &mut Steps<L>,
) -> bool
    requires { All (All (AreThere place.now.version.now)) (map variant_words variants.old.items) }
    ensures says { result ≡ list_any
        (λ words. spec.stands_at_edge edge place.now.span (map (wanted_at place.now.version.now place.now.doc.0 place.now.span) words))
        (map variant_words variants.old.items) }
    ensures same { map variant_words variants.new.items ≡ map variant_words variants.old.items }
    ensures grown { moves.old ≤ moves.new }
{
    for number in 0..variants.len() {
        if variant_stands(place, edge, &mut variants[number], moves) {
            return true;
        }
    }
    false
}

/// Whether the words of a variant stand at that edge.
fn variant_stands<L: Ledger>(
    place: &AskedPlace<'_>,
    edge: Edge,
    words: &mut Vec<WordTerms<'_>>,
    moves: &mut Steps<L>,
) -> bool
    requires { All (AreThere place.now.version.now) words.old.items }
    ensures says { result ≡ spec.stands_at_edge edge place.now.span (map (wanted_at place.now.version.now place.now.doc.0 place.now.span) words.old.items) }
    ensures same { words.new.items ≡ words.old.items }
    ensures grown { moves.old ≤ moves.new }
{
    let span = place.span;
    match edge_place(edge, span, words.len()) {
        Some(from) => words_stand(place, Span { from, to: span.to }, words, moves),
        None => false,
    }
}

/// Whether the words stand one after the other, the first at the start of that part of the span.
fn words_stand<L: Ledger>(
    place: &AskedPlace<'_>,
    part: Span,
    words: &mut Vec<WordTerms<'_>>,
    moves: &mut Steps<L>,
) -> bool
    requires there { All (AreThere place.now.version.now) words.old.items }
    requires from { place.now.span.from ≤ part.from }
    requires to { part.to ≤ place.now.span.to }
    requires within { part.from + length words.old.items ≤ part.to }
    ensures says { result ≡ stands_at part.from (map (wanted_at place.now.version.now place.now.doc.0 place.now.span) words.old.items) }
    ensures same { words.new.items ≡ words.old.items }
    ensures grown { moves.old ≤ moves.new }
{
    for number in 0..words.len() {
        let rest = Span {
            from: part.from + number as u32,
            to: part.to,
        };
        if !word_stands(place, rest, &mut words[number], moves) {
            return false;
        }
    }
    true
}

/// Whether the word stands at the start of that part of the span.
fn word_stands<L: Ledger>(
    place: &AskedPlace<'_>,
    part: Span,
    word: &mut WordTerms<'_>,
    moves: &mut Steps<L>,
) -> bool
    requires there { AreThere place.now.version.now word.old }
    requires from { place.now.span.from ≤ part.from }
    requires to { part.to ≤ place.now.span.to }
    requires some { part.from < part.to }
    ensures says { result ≡ fits part.from (wanted_at place.now.version.now place.now.doc.0 place.now.span word.old) }
    ensures same { word.new ≡ word.old }
    ensures grown { moves.old ≤ moves.new }
{
    match word {
        WordTerms::Any => true,
        WordTerms::Of(terms) => {
            let only = Span {
                from: part.from,
                to: part.from + 1,
            };
            seek_in(terms, place.doc, only, moves).is_some()
        }
    }
}
