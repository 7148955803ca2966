//! At how many places one of the variants stands.

ghost use Rattle.std.specs.Prelude.{◌≡◌, ◌+◌, ◌*◌, ◌<◌, ◌≤◌, IsTrue, min};
ghost use Rattle.place_merges.specs.Places.{places_between};
ghost use Rattle.place_merges.specs.Sources.{all_left, all_lists, all_plain, wanted_words};
ghost use Rattle.place_merges.specs.steps.Searching.{Leads, Moved, SameFrom, one_stands, shown_variants};

use crate::Variant;
use crate::variant::lead_of_variant;
use ft_base::{FirstWords, Span, Steps};
use std::sync::ledger::Ledger;

/// At how many places of the span one of the variants that count begins and ends in the span. A place counts once,
/// however many variants stand there, and the count stops at `most`.
///
/// The sources go forward only: from hit to hit of the item that leads, and where that fits, of the first item that
/// doesn't. Of plain sources each hit that is passed counts two steps at most.
pub fn count_places<H: FirstWords, L: Ledger>(
    variants: &mut Vec<Variant<H>>,
    span: Span,
    most: u64,
    steps: &mut Steps<L>,
) -> u64
    ensures count { result ≡ min (places_between span.from span.to (wanted_words H.stand variants.old.items)) most }
    ensures lists { all_lists H.stand variants.new.items ≡ all_lists H.stand variants.old.items }
    ensures plain { all_plain H.plain variants.new.items ≡ all_plain H.plain variants.old.items }
    ensures counted { IsTrue (all_plain H.plain variants.old.items) →
        steps.new + 2 * all_left H.stand variants.new.items ≤ steps.old + 2 * all_left H.stand variants.old.items }
    ensures grown { steps.old ≤ steps.new }
{
    let mut count = 0;
    let mut place = span.from;
    while place < span.to && count < most {
        let next = lead_of_variants(variants, place, span.to, steps);
        if next == place {
            count += 1;
            place += 1;
        } else {
            place = next;
        }
    }
    count
}

/// The place, where one of the variants begins there and ends before `to`; or else a later one, up to `to`,
/// before which none does.
fn lead_of_variants<H: FirstWords, L: Ledger>(
    variants: &mut Vec<Variant<H>>,
    place: u32,
    to: u32,
    steps: &mut Steps<L>,
) -> u32
    requires { place < to }
    ensures leads { Leads (one_stands H.stand to variants.old.items) place to result }
    ensures same { SameFrom place (one_stands H.stand to variants.new.items) (one_stands H.stand to variants.old.items) }
    ensures moved { Moved (shown_variants H.stand H.plain variants.old.items) (shown_variants H.stand H.plain variants.new.items) steps.old steps.new }
{
    let mut first = to;
    for number in 0..variants.len() {
        let next = lead_of_variant(&mut variants[number], place, to, steps);
        if next == place {
            return place;
        }
        first = first.min(next);
    }
    first
}
