//! Whether two phrases stand as far from one another as a range tells.

ghost use Rattle.std.specs.Prelude.{◌≡◌, ◌≤◌, map, true};
ghost use Rattle.window_merges.specs.Choices.{some_choice};
ghost use Rattle.phrase_merges.specs.Choices.{are_apart, are_between};
ghost use Rattle.phrase_merges.specs.Rows.{aims_of, all_aims, all_may, are_rising, hits_left, hits_there, rise_there};
ghost use Rattle.phrase_merges.specs.steps.Ahead.{some_after};

use crate::aiming::aim_all;
use crate::edge::Edge;
use crate::near::stand_near;
use crate::reaching::least_number;
use ft_base::{DocId, Range, Span, Steps, Unit};
use ft_operators::PhraseHits;
use std::sync::ledger::Ledger;

/// Whether one hit of each of two phrases, in the span of the document, can be chosen so that as many words, sentences or paragraphs
/// are between them as the range tells.
///
/// Either phrase may stand before, and the lists go forward only, so they are aimed at the span for each of the two orders.
pub fn stand_apart<P: PhraseHits, L: Ledger>(
    phrases: &mut Vec<Vec<P>>,
    doc: DocId,
    span: Span,
    range: Range,
    unit: Unit,
    steps: &mut Steps<L>,
) -> bool
    requires may { all_may doc.0 span (all_aims P.state phrases.old.items) ≡ true }
    requires rising { rise_there doc.0 span (all_aims P.state phrases.old.items) ≡ true }
    ensures apart { result ≡ some_choice (are_apart range unit) (map (hits_there doc.0 span) (all_aims P.state phrases.old.items)) }
    ensures aims { all_aims P.state phrases.new.items ≡ all_aims P.state phrases.old.items }
    ensures grown { steps.old ≤ steps.new }
{
    match range {
        Range::Exactly(size) => stand_between(phrases, doc, span, size, Some(size), unit, steps),
        Range::AtLeast(size) => stand_between(phrases, doc, span, size, None, unit, steps),
        Range::AtMost(size) => {
            aim_all(phrases, doc, span, steps);
            stand_near(phrases, size, unit, steps)
        }
        Range::FromTo(low, high) => stand_between(phrases, doc, span, low, Some(high), unit, steps),
    }
}

fn stand_between<P: PhraseHits, L: Ledger>(
    phrases: &mut Vec<Vec<P>>,
    doc: DocId,
    span: Span,
    low: u32,
    high: Option<u32>,
    unit: Unit,
    steps: &mut Steps<L>,
) -> bool
    requires may { all_may doc.0 span (all_aims P.state phrases.old.items) ≡ true }
    requires rising { rise_there doc.0 span (all_aims P.state phrases.old.items) ≡ true }
    ensures between { result ≡ some_choice (are_between low high unit) (map (hits_there doc.0 span) (all_aims P.state phrases.old.items)) }
    ensures aims { all_aims P.state phrases.new.items ≡ all_aims P.state phrases.old.items }
    ensures grown { steps.old ≤ steps.new }
{
    if phrases.len() != 2 {
        return false;
    }
    aim_all(phrases, doc, span, steps);
    let (first, second) = phrases.split_at_mut(1);
    if stands_after(&mut first[0], &mut second[0], low, high, unit, steps) {
        return true;
    }
    aim_all(phrases, doc, span, steps);
    let (first, second) = phrases.split_at_mut(1);
    stands_after(&mut second[0], &mut first[0], low, high, unit, steps)
}

/// Whether a hit of the second phrase stands after one of the first, with at least `low` words, sentences or paragraphs between
/// them, and at most `high`, if there is a most.
///
/// Of the hits of the first phrase that are left the one that ends first lets the second begin first. If even that begins too far
/// on, whatever ends too far before it is left behind.
fn stands_after<P: PhraseHits, L: Ledger>(
    first: &mut Vec<P>,
    second: &mut Vec<P>,
    low: u32,
    high: Option<u32>,
    unit: Unit,
    steps: &mut Steps<L>,
) -> bool
    requires first { are_rising P.state first.old.items ≡ true }
    requires second { are_rising P.state second.old.items ≡ true }
    ensures after { result ≡ some_after low high unit (hits_left P.state first.old.items) (hits_left P.state second.old.items) }
    ensures first_aims { aims_of P.state first.new.items ≡ aims_of P.state first.old.items }
    ensures second_aims { aims_of P.state second.new.items ≡ aims_of P.state second.old.items }
    ensures grown { steps.old ≤ steps.new }
{
    let mut place: u64 = 0;
    while let Some(end) = least_number(first, Edge::End, Edge::End, unit, place, steps) {
        let after = u64::from(end) + 1;
        let from = after + u64::from(low);
        let start = match least_number(second, Edge::Start, Edge::Start, unit, from, steps) {
            None => return false,
            Some(start) => u64::from(start),
        };
        let reach = match high {
            None => return true,
            Some(high) => u64::from(high),
        };
        if start <= after + reach {
            return true;
        }
        place = start - 1 - reach;
    }
    false
}
