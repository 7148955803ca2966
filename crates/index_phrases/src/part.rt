//! The part of a span in which the hits of a phrase lie that lie in some bounds.

ghost use Rattle.std.specs.Prelude.{◌≡◌, ◌≤◌, ◌<◌, ◌-◌, ◌^◌, ◌&&◌, nat_le};
ghost use Rattle.ft_operators.specs.Bounds.{is_before};
ghost use Rattle.index_phrases.specs.Parts.{may_begin, may_end};
ghost use Rattle.index_phrases.specs.Phrases.{own_number};
ghost use Rattle.index_phrases.specs.steps.Numbers.{numbers_at};
ghost use Rattle.index_phrases.specs.steps.Parting.{is_past, IsFirst, IsPart};

use crate::target::Target;
use crate::telling::numbers_in_span;
use crate::unit_numbers::UnitNumbers;
use ft_base::Span;
use ft_operators::Bounds;

/// One of two edges of bounds.
#[derive(Clone, Copy)]
pub(crate) enum Edge {
    /// Where hits may begin.
    Begin,
    /// Where none may end any more.
    End,
}

/// The part of the span in which the hits of the phrase of that number lie that lie in the bounds.
pub(crate) fn part_of(bounds: &Bounds, number: u32, target: &Target<'_>) -> Span
    ensures { IsPart bounds.now number target.now.breaks.breaks.now target.now.span result }
{
    if target.span.to <= target.span.from {
        return target.span;
    }
    let first = UnitNumbers::at(target.breaks, target.span.from);
    Span {
        from: first_past(Edge::Begin, bounds, number, target, first),
        to: first_past(Edge::End, bounds, number, target, first),
    }
}

/// The first place of the span that is past the edge. The place at its end stands for none.
fn first_past(
    edge: Edge,
    bounds: &Bounds,
    number: u32,
    target: &Target<'_>,
    first: UnitNumbers,
) -> u32
    requires order { target.now.span.from < target.now.span.to }
    requires first { first ≡ numbers_at target.now.breaks.breaks.now target.now.span.from }
    ensures first { target.now.span.from ≤ result }
    ensures last { result ≤ target.now.span.to }
    ensures found { IsFirst (is_past edge bounds.now number target.now.breaks.breaks.now target.now.span) target.now.span.from target.now.span.to result }
{
    let mut low = target.span.from;
    let mut size = target.span.to - target.span.from;
    while size > 0 {
        let half = size / 2;
        if is_past(edge, bounds, number, target, first, low + half) {
            size = half;
        } else {
            low += half + 1;
            size -= half + 1;
        }
    }
    low
}

/// Whether the place is past the edge.
fn is_past(
    edge: Edge,
    bounds: &Bounds,
    number: u32,
    target: &Target<'_>,
    first: UnitNumbers,
    place: u32,
) -> bool
    requires position { place < 2 ^ 32 - 1 }
    requires first { first ≡ numbers_at target.now.breaks.breaks.now target.now.span.from }
    ensures { result ≡ is_past edge bounds.now number target.now.breaks.breaks.now target.now.span place }
{
    match edge {
        Edge::Begin => may_begin(bounds, number, target, first, place),
        Edge::End => !may_end(bounds, target, first, place),
    }
}

/// Whether a hit that begins at the place begins in the bounds.
fn may_begin(
    bounds: &Bounds,
    number: u32,
    target: &Target<'_>,
    first: UnitNumbers,
    place: u32,
) -> bool
    requires position { place < 2 ^ 32 - 1 }
    requires first { first ≡ numbers_at target.now.breaks.breaks.now target.now.span.from }
    ensures { result ≡ may_begin bounds.now number target.now.breaks.breaks.now target.now.span place }
{
    let word = place.saturating_sub(target.span.from.saturating_sub(1));
    bounds.words.from <= u64::from(word)
        && units_begin(bounds, target, first, place)
        && (bounds.order.from <= word || number <= bounds.order.query)
}

/// The same of its sentence and its paragraph, which are looked up only where the bounds ask for them.
fn units_begin(bounds: &Bounds, target: &Target<'_>, first: UnitNumbers, place: u32) -> bool
    requires position { place < 2 ^ 32 - 1 }
    requires first { first ≡ numbers_at target.now.breaks.breaks.now target.now.span.from }
    ensures { result
        ≡ (nat_le bounds.now.sentences.from (own_number target.now.breaks.breaks.now.sentences target.now.span.from place)
        && nat_le bounds.now.paragraphs.from (own_number target.now.breaks.breaks.now.paragraphs target.now.span.from place)) }
{
    if bounds.sentences.from == 0 && bounds.paragraphs.from == 0 {
        return true;
    }
    let own = numbers_in_span(target, first, place);
    bounds.sentences.from <= u64::from(own.sentence)
        && bounds.paragraphs.from <= u64::from(own.paragraph)
}

/// Whether a hit that ends at the place ends in the bounds.
fn may_end(bounds: &Bounds, target: &Target<'_>, first: UnitNumbers, place: u32) -> bool
    requires position { place < 2 ^ 32 - 1 }
    requires first { first ≡ numbers_at target.now.breaks.breaks.now target.now.span.from }
    ensures { result ≡ may_end bounds.now target.now.breaks.breaks.now target.now.span place }
{
    let word = place.saturating_sub(target.span.from.saturating_sub(1));
    is_before(bounds.words.to, word) && units_end(bounds, target, first, place)
}

/// The same of its sentence and its paragraph.
fn units_end(bounds: &Bounds, target: &Target<'_>, first: UnitNumbers, place: u32) -> bool
    requires position { place < 2 ^ 32 - 1 }
    requires first { first ≡ numbers_at target.now.breaks.breaks.now target.now.span.from }
    ensures { result
        ≡ (is_before bounds.now.sentences.to (own_number target.now.breaks.breaks.now.sentences target.now.span.from place)
        && is_before bounds.now.paragraphs.to (own_number target.now.breaks.breaks.now.paragraphs target.now.span.from place)) }
{
    if bounds.sentences.to.is_none() && bounds.paragraphs.to.is_none() {
        return true;
    }
    let own = numbers_in_span(target, first, place);
    is_before(bounds.sentences.to, own.sentence) && is_before(bounds.paragraphs.to, own.paragraph)
}

fn is_before(end: Option<u64>, number: u32) -> bool
    ensures { result ≡ is_before end number }
{
    match end {
        None => true,
        Some(end) => u64::from(number) < end,
    }
}
