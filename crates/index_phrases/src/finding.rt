//! The next hit of a phrase.

ghost use Rattle.std.specs.Prelude.{◌≡◌, ◌≤◌, map};
ghost use Rattle.std.specs.Option.{ForSome};
ghost use Rattle.place_merges.specs.Sources.{all_lists, wanted_words};
ghost use Rattle.place_merges.specs.Spots.{spots_left};
ghost use Rattle.place_merges.specs.steps.Spotting.{IsInside};
ghost use Rattle.index_phrases.specs.Phrases.{numbered_hit};
ghost use Rattle.index_phrases.specs.steps.Left.{rest_of};
ghost use Rattle.index_phrases.specs.steps.Numbers.{numbers_at};

use crate::found::Found;
use crate::target::Target;
use crate::telling::tell;
use crate::unit_numbers::UnitNumbers;
use ft_base::Steps;
use index_versions::TermCursor;
use place_merges::{Spot, Variant, next_spot};
use std::sync::ledger::Ledger;

/// The first spot after that one, and before `to`, at which a variant stands, with the hit of the phrase of that number on it.
/// The numbers of the span's first word are given, where they are known from a hit before it.
pub(crate) fn found_after<'v, L: Ledger>(
    variants: &mut Vec<Variant<TermCursor<'v>>>,
    number: u32,
    target: &Target<'v>,
    known: Option<UnitNumbers>,
    to: u32,
    after: Spot,
    steps: &mut Steps<L>,
) -> Option<Found<'v>>
    requires place { target.now.span.from ≤ after.place }
    requires known { ForSome known (λ first. first ≡ numbers_at target.now.breaks.breaks.now target.now.span.from) }
    ensures left { map (numbered_hit number target.now.breaks.breaks.now target.now.span)
        (spots_left to (wanted_words (λ cursor. cursor) variants.old.items) after)
        ≡ rest_of number (wanted_words (λ cursor. cursor) variants.new.items) result }
    ensures lists { all_lists (λ cursor. cursor) variants.new.items ≡ all_lists (λ cursor. cursor) variants.old.items }
    ensures grown { steps.old ≤ steps.new }
{
    match next_spot(variants, after, to, steps) {
        Some(spot) => Some(found_on(number, target, to, known, spot)),
        None => None,
    }
}

/// What is found on a spot of the span, which ends before `to`.
fn found_on<'v>(
    number: u32,
    target: &Target<'v>,
    to: u32,
    known: Option<UnitNumbers>,
    spot: Spot,
) -> Found<'v>
    requires inside { IsInside target.now.span.from to spot }
    requires known { ForSome known (λ first. first ≡ numbers_at target.now.breaks.breaks.now target.now.span.from) }
    ensures target { result.target ≡ target.now }
    ensures to { result.to ≡ to }
    ensures spot { result.spot ≡ spot }
    ensures hit { result.hit ≡ numbered_hit number target.now.breaks.breaks.now target.now.span spot }
{
    let first = match known {
        Some(first) => first,
        None => UnitNumbers::at(target.breaks, target.span.from),
    };
    let hit = tell(number, target, to, first, spot);
    Found {
        target: *target,
        to,
        first,
        spot,
        hit,
    }
}
