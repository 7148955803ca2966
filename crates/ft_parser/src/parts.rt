//! The parts of selections that hold no other parts.

ghost use Rattle.std.specs.Prelude.{◌≡◌, ◌≤◌, ◌<◌, ◌+◌, drop, length, IfOk, codes};
ghost use Rattle.ft_base.specs.declared.filter.Filter.TheVariants as F;
ghost use Rattle.ft_parser.specs.steps.Parts as spec;
ghost use Rattle.ft_parser.specs.steps.Turns as turns;
ghost use Rattle.selection_grammar.specs.Keywords as keywords;
ghost use Rattle.selection_grammar.specs.steps.Reading.{reading};

use crate::heads::{is_word, number_at};
use ft_base::{Filter, Range, Unit};
use selection_grammar::{Placed, PlacedTimes};

fn unit(symbols: &[Placed], next: usize) -> Result<(Unit, usize), usize>
    ensures value { result ≡ reading keywords.unit symbols.now next }
    ensures within { IfOk result (λ r. r.1 ≤ length symbols.now) }
{
    if is_word(symbols, next, "words") {
        Ok((Unit::Words, next + 1))
    } else if is_word(symbols, next, "sentences") {
        Ok((Unit::Sentences, next + 1))
    } else if is_word(symbols, next, "paragraphs") {
        Ok((Unit::Paragraphs, next + 1))
    } else {
        Err(next)
    }
}

/// A range after `at`.
pub(crate) fn bound(symbols: &[Placed], next: usize) -> Result<(Range, usize), usize>
    ensures value { result ≡ reading keywords.bound symbols.now next }
    ensures within { IfOk result (λ r. r.1 ≤ length symbols.now) }
{
    if is_word(symbols, next, "least") {
        match number_at(symbols, next + 1) {
            Some(number) => Ok((Range::AtLeast(number), next + 2)),
            None => Err(next + 1),
        }
    } else if is_word(symbols, next, "most") {
        match number_at(symbols, next + 1) {
            Some(number) => Ok((Range::AtMost(number), next + 2)),
            None => Err(next + 1),
        }
    } else {
        Err(next)
    }
}

/// A range after `from`.
fn two_bounds(symbols: &[Placed], next: usize) -> Result<(Range, usize), usize>
    ensures value { result ≡ reading keywords.two_bounds symbols.now next }
    ensures within { IfOk result (λ r. r.1 ≤ length symbols.now) }
{
    let Some(low) = number_at(symbols, next) else {
        return Err(next);
    };
    if !is_word(symbols, next + 1, "to") {
        return Err(next + 1);
    }
    match number_at(symbols, next + 2) {
        Some(high) => Ok((Range::FromTo(low, high), next + 3)),
        None => Err(next + 2),
    }
}

/// Whether a range begins there, but for one with `at`.
pub(crate) fn begins_range_without_at(symbols: &[Placed], next: usize) -> bool
    ensures { result ≡ turns.begins_range_without_at (drop next symbols.now) }
{
    is_word(symbols, next, "exactly") || is_word(symbols, next, "from")
}

/// A range that doesn't begin with `at`.
pub(crate) fn range_without_at(symbols: &[Placed], next: usize) -> Result<(Range, usize), usize>
    ensures value { result ≡ reading keywords.range_without_at symbols.now next }
    ensures within { IfOk result (λ r. r.1 ≤ length symbols.now) }
{
    if is_word(symbols, next, "exactly") {
        match number_at(symbols, next + 1) {
            Some(number) => Ok((Range::Exactly(number), next + 2)),
            None => Err(next + 1),
        }
    } else if is_word(symbols, next, "from") {
        two_bounds(symbols, next + 1)
    } else {
        Err(next)
    }
}

pub(crate) fn range(symbols: &[Placed], next: usize) -> Result<(Range, usize), usize>
    ensures value { result ≡ reading keywords.range symbols.now next }
    ensures within { IfOk result (λ r. r.1 ≤ length symbols.now) }
{
    if is_word(symbols, next, "at") {
        bound(symbols, next + 1)
    } else {
        range_without_at(symbols, next)
    }
}

/// Times after an `occurs` at that place.
pub(crate) fn times(
    symbols: &[Placed],
    next: usize,
    at: usize,
) -> Result<(PlacedTimes, usize), usize>
    ensures value { result ≡ spec.times_reading at symbols.now next }
    ensures within { IfOk result (λ r. r.1 ≤ length symbols.now) }
{
    let (range, end) = range(symbols, next)?;
    if is_word(symbols, end, "times") {
        Ok((PlacedTimes { at, range }, end + 1))
    } else {
        Err(end)
    }
}

fn window(symbols: &[Placed], next: usize) -> Result<(Filter, usize), usize>
    ensures value { result ≡ spec.window_reading symbols.now next }
    ensures within { IfOk result (λ r. r.1 ≤ length symbols.now) }
{
    match number_at(symbols, next) {
        None => Err(next),
        Some(size) => {
            let (unit, end) = unit(symbols, next + 1)?;
            Ok((Filter::Window(size, unit), end))
        }
    }
}

fn distance(symbols: &[Placed], next: usize) -> Result<(Filter, usize), usize>
    ensures value { result ≡ spec.distance_reading symbols.now next }
    ensures within { IfOk result (λ r. r.1 ≤ length symbols.now) }
{
    let (range, middle) = range(symbols, next)?;
    let (unit, end) = unit(symbols, middle)?;
    Ok((Filter::Distance(range, unit), end))
}

/// `sentence` or `paragraph`.
fn scope(
    symbols: &[Placed],
    next: usize,
    sentence: Filter,
    paragraph: Filter,
) -> Result<(Filter, usize), usize>
    ensures value { result ≡ reading (keywords.scope sentence paragraph) symbols.now next }
    ensures within { IfOk result (λ r. r.1 ≤ length symbols.now) }
{
    if is_word(symbols, next, "sentence") {
        Ok((sentence, next + 1))
    } else if is_word(symbols, next, "paragraph") {
        Ok((paragraph, next + 1))
    } else {
        Err(next)
    }
}

/// A filter after its `at`.
pub(crate) fn side(symbols: &[Placed], next: usize) -> Result<(Filter, usize), usize>
    ensures value { result ≡ reading keywords.side symbols.now next }
    ensures within { IfOk result (λ r. r.1 ≤ length symbols.now) }
{
    if is_word(symbols, next, "start") {
        Ok((Filter::AtStart, next + 1))
    } else if is_word(symbols, next, "end") {
        Ok((Filter::AtEnd, next + 1))
    } else {
        Err(next)
    }
}

fn content(symbols: &[Placed], next: usize) -> Result<(Filter, usize), usize>
    ensures value { result ≡ spec.before_word (codes "content") F.EntireContent symbols.now next }
    ensures within { IfOk result (λ r. r.1 ≤ length symbols.now) }
{
    if is_word(symbols, next, "content") {
        Ok((Filter::EntireContent, next + 1))
    } else {
        Err(next)
    }
}

/// A filter that doesn't begin with `at`.
#[tactic(auto, unfolding(crate::specs::steps::Parts::other_filter_reading))]
pub(crate) fn other_filter(symbols: &[Placed], next: usize) -> Result<(Filter, usize), usize>
    ensures value { result ≡ spec.other_filter_reading symbols.now next }
    ensures within { IfOk result (λ r. r.1 ≤ length symbols.now) }
{
    if is_word(symbols, next, "ordered") {
        Ok((Filter::Ordered, next + 1))
    } else if is_word(symbols, next, "window") {
        window(symbols, next + 1)
    } else if is_word(symbols, next, "distance") {
        distance(symbols, next + 1)
    } else if is_word(symbols, next, "same") {
        scope(
            symbols,
            next + 1,
            Filter::SameSentence,
            Filter::SameParagraph,
        )
    } else if is_word(symbols, next, "different") {
        scope(
            symbols,
            next + 1,
            Filter::DifferentSentence,
            Filter::DifferentParagraph,
        )
    } else if is_word(symbols, next, "entire") {
        content(symbols, next + 1)
    } else {
        Err(next)
    }
}

#[tactic(auto, unfolding(crate::specs::steps::Parts::filter_reading))]
pub(crate) fn filter(symbols: &[Placed], next: usize) -> Result<(Filter, usize), usize>
    ensures value { result ≡ spec.filter_reading symbols.now next }
    ensures within { IfOk result (λ r. r.1 ≤ length symbols.now) }
{
    if is_word(symbols, next, "at") {
        side(symbols, next + 1)
    } else {
        other_filter(symbols, next)
    }
}

/// Whether a filter begins there, but for one with `at`.
pub(crate) fn begins_other_filter(symbols: &[Placed], next: usize) -> bool
    ensures { result ≡ spec.begins_other_filter (drop next symbols.now) }
{
    is_word(symbols, next, "ordered")
        || is_word(symbols, next, "window")
        || is_word(symbols, next, "distance")
        || is_word(symbols, next, "same")
        || is_word(symbols, next, "different")
        || is_word(symbols, next, "entire")
}

pub(crate) fn begins_filter(symbols: &[Placed], next: usize) -> bool
    ensures { result ≡ spec.begins_filter (drop next symbols.now) }
{
    begins_other_filter(symbols, next) || is_word(symbols, next, "at")
}
