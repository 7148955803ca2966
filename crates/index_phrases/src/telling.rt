//! Hits on spots, told in the numbers of a span.

ghost use Rattle.std.specs.Prelude.{◌≡◌, ◌<◌, ◌-◌, ◌^◌};
ghost use Rattle.place_merges.specs.steps.Spotting.{IsInside};
ghost use Rattle.index_phrases.specs.Phrases.{numbered_hit};
ghost use Rattle.index_phrases.specs.steps.Numbers.{numbers_at, own_numbers};

use crate::target::Target;
use crate::unit_numbers::UnitNumbers;
use ft_base::Hit;
use place_merges::Spot;

/// The hit of the phrase of that number on a spot of the span, which ends at `to`: so no position leaves its type. The numbers
/// of the span's first word are given, since all hits of the span are counted from them.
pub(crate) fn tell(number: u32, target: &Target<'_>, to: u32, first: UnitNumbers, at: Spot) -> Hit
    requires inside { IsInside target.now.span.from to at }
    requires first { first ≡ numbers_at target.now.breaks.breaks.now target.now.span.from }
    ensures { result ≡ numbered_hit number target.now.breaks.breaks.now target.now.span at }
{
    let before = target.span.from.saturating_sub(1);
    let last = at.place + (at.words - 1);
    let begin = numbers_in_span(target, first, at.place);
    let end = if last == at.place {
        begin
    } else {
        numbers_in_span(target, first, last)
    };
    Hit {
        query: number,
        from: at.place - before,
        to: last - before,
        sent_from: begin.sentence,
        sent_to: end.sentence,
        para_from: begin.paragraph,
        para_to: end.paragraph,
        whole: true,
    }
}

/// The numbers of the word at a position, where the span's first word is in its first sentence and paragraph.
pub(crate) fn numbers_in_span(target: &Target<'_>, first: UnitNumbers, position: u32) -> UnitNumbers
    requires position { position < 2 ^ 32 - 1 }
    requires first { first ≡ numbers_at target.now.breaks.breaks.now target.now.span.from }
    ensures { result ≡ own_numbers target.now.breaks.breaks.now target.now.span.from position }
{
    let there = UnitNumbers::at(target.breaks, position);
    UnitNumbers {
        sentence: counted_from(first.sentence, there.sentence),
        paragraph: counted_from(first.paragraph, there.paragraph),
    }
}

/// A number counted from the first one, which is 1.
fn counted_from(first: u32, number: u32) -> u32
    ensures { result ≡ number - (first - 1) }
{
    number.saturating_sub(first.saturating_sub(1))
}
