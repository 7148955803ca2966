//! Where the variants stand, spot by spot.

ghost use Rattle.std.specs.Prelude.{◌≡◌, ◌+◌, ◌-◌, ◌*◌, ◌^◌, ◌<◌, ◌≤◌, IsTrue, cond, nat_lt, true};
ghost use Rattle.std.specs.Option.{ForSome};
ghost use Rattle.place_merges.specs.Sources.{all_left, all_lists, all_plain, wanted_words};
ghost use Rattle.place_merges.specs.Spots.{from_found, from_lead, spots_left};
ghost use Rattle.place_merges.specs.steps.Searching.{Moved, shown_variant};
ghost use Rattle.place_merges.specs.steps.Spotting.{IsInside, LeadsAfter, SameAfter, is_before, variant_at};

use crate::variant::lead_of_variant;
use crate::{Spot, Variant};
use ft_base::{FirstWords, Steps};
use std::sync::ledger::Ledger;

/// The first spot after that one at which one of the variants that count stands, before `to`: the shortest one at the
/// first place. `None` is given exactly where there is none.
///
/// Spots come place after place, and at a place by their numbers of words. After a spot of no words are those of its place.
/// The sources go forward only, so that the next call may ask after the spot that was found. Of plain sources each hit that
/// is passed counts two steps at most.
pub fn next_spot<H: FirstWords, L: Ledger>(
    variants: &mut Vec<Variant<H>>,
    past: Spot,
    to: u32,
    steps: &mut Steps<L>,
) -> Option<Spot>
    ensures spots { spots_left to (wanted_words H.stand variants.old.items) past ≡
        from_found (spots_left to (wanted_words H.stand variants.new.items)) result }
    ensures inside { ForSome result (IsInside past.place to) }
    ensures lists { all_lists H.stand variants.new.items ≡ all_lists H.stand variants.old.items }
    ensures plain { all_plain H.plain variants.new.items ≡ all_plain H.plain variants.old.items }
    ensures counted { IsTrue (all_plain H.plain variants.old.items) →
        steps.new + 2 * all_left H.stand variants.new.items ≤ steps.old + 2 * all_left H.stand variants.old.items }
    ensures grown { steps.old ≤ steps.new }
{
    let mut at = past;
    while at.place < to {
        let next = next_lead(variants, at, to, steps);
        if next.words > 0 {
            return Some(next);
        }
        at = next;
    }
    None
}

/// One step of the search for that spot: the spot itself, or else one of no words at a later place up to `to`, before which none of the
/// variants stands. So who needs no spot beyond some place needs no step beyond it, and may go on with the next one later.
///
/// The next call may ask after the spot that is given. Of plain sources each hit that is passed counts two steps at most.
pub fn next_lead<H: FirstWords, L: Ledger>(
    variants: &mut Vec<Variant<H>>,
    past: Spot,
    to: u32,
    steps: &mut Steps<L>,
) -> Spot
    requires { past.place < to }
    ensures spots { spots_left to (wanted_words H.stand variants.old.items) past ≡
        from_lead (spots_left to (wanted_words H.stand variants.new.items)) result }
    ensures ahead { is_before past result ≡ true }
    ensures last { result.place + result.words ≤ to }
    ensures lists { all_lists H.stand variants.new.items ≡ all_lists H.stand variants.old.items }
    ensures plain { all_plain H.plain variants.new.items ≡ all_plain H.plain variants.old.items }
    ensures counted { IsTrue (all_plain H.plain variants.old.items) →
        steps.new + 2 * all_left H.stand variants.new.items ≤ steps.old + 2 * all_left H.stand variants.old.items }
    ensures grown { steps.old ≤ steps.new }
{
    let mut first = Spot {
        place: to,
        words: 0,
    };
    for number in 0..variants.len() {
        let next = lead_of_variant_after(&mut variants[number], past, to, steps);
        first = sooner(first, next);
    }
    first
}

/// The second of two spots where it comes before the first, and else the first.
fn sooner(first: Spot, second: Spot) -> Spot
    ensures { result ≡ cond (is_before second first) second first }
{
    if second.place < first.place {
        return second;
    }
    if second.place == first.place && second.words < first.words {
        return second;
    }
    first
}

/// The first spot after that one at which the variant stands; or else one of no words, at a later place up to `to`, before which it
/// doesn't.
fn lead_of_variant_after<H: FirstWords, L: Ledger>(
    variant: &mut Variant<H>,
    at: Spot,
    to: u32,
    steps: &mut Steps<L>,
) -> Spot
    requires { at.place < to }
    ensures leads { LeadsAfter (variant_at H.stand to variant.old) at to result }
    ensures same { SameAfter at (variant_at H.stand to variant.new) (variant_at H.stand to variant.old) }
    ensures moved { Moved (shown_variant H.stand H.plain variant.old) (shown_variant H.stand H.plain variant.new) steps.old steps.new }
{
    if variant.items.len() > (to - at.place) as usize {
        return Spot {
            place: to,
            words: 0,
        };
    }
    let words = variant.items.len() as u32;
    let place = first_place(at, words);
    if place >= to {
        return Spot {
            place: to,
            words: 0,
        };
    }
    let next = lead_of_variant(variant, place, to, steps);
    if next == place {
        return Spot { place, words };
    }
    Spot {
        place: next,
        words: 0,
    }
}

/// The first place after the spot at which so many words may stand: its own, where they are more than its words.
fn first_place(at: Spot, words: u32) -> u32
    requires { at.place < 2 ^ 32 - 1 }
    ensures { result ≡ cond (nat_lt at.words words) at.place (at.place + 1) }
{
    if words > at.words {
        at.place
    } else {
        at.place + 1
    }
}
