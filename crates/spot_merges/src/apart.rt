//! Whether a phrase stands where no other one covers it.

ghost use Rattle.std.specs.Prelude.{◌≡◌, ◌+◌, ◌*◌, ◌≤◌, IsTrue, not, ◌&&◌};
ghost use Rattle.place_merges.specs.Sources.{all_left, all_lists, all_plain, wanted_words};
ghost use Rattle.spot_merges.specs.Apart.{some_apart};
ghost use Rattle.spot_merges.specs.Edges.{spots_of};

use crate::covering::{Cover, cover_up_to};
use ft_base::{FirstWords, Span, Steps};
use place_merges::{Spot, Variant, next_spot};
use std::sync::ledger::Ledger;

/// Whether one of the left variants that count stands in the span on words that no right variant covers all of.
///
/// Both sides go forward only: for each spot of the left side, the right one is led on until it is past the place where that spot begins,
/// and keeps the farthest end of those that it passed. No spot that begins later covers the left one, so the right side is sought no
/// further. Of plain sources each hit that is passed counts two steps at most.
pub(crate) fn stand_apart<H: FirstWords, L: Ledger>(
    left: &mut Vec<Variant<H>>,
    right: &mut Vec<Variant<H>>,
    span: Span,
    steps: &mut Steps<L>,
) -> bool
    ensures apart { result ≡ some_apart (spots_of span (wanted_words H.stand left.old.items)) (spots_of span (wanted_words H.stand right.old.items)) }
    ensures left_lists { all_lists H.stand left.new.items ≡ all_lists H.stand left.old.items }
    ensures right_lists { all_lists H.stand right.new.items ≡ all_lists H.stand right.old.items }
    ensures left_plain { all_plain H.plain left.new.items ≡ all_plain H.plain left.old.items }
    ensures right_plain { all_plain H.plain right.new.items ≡ all_plain H.plain right.old.items }
    ensures counted { IsTrue (all_plain H.plain left.old.items && all_plain H.plain right.old.items) →
        steps.new + (2 * all_left H.stand left.new.items + 2 * all_left H.stand right.new.items) ≤
        steps.old + (2 * all_left H.stand left.old.items + 2 * all_left H.stand right.old.items) }
    ensures grown { steps.old ≤ steps.new }
{
    let mut after = Spot {
        place: span.from,
        words: 0,
    };
    let mut cover = Cover {
        end: span.from,
        lead: after,
    };
    while let Some(at) = next_spot(left, after, span.to, steps) {
        cover = cover_up_to(right, cover, at.place, span.to, steps);
        if cover.end < at.place + at.words {
            return true;
        }
        after = at;
    }
    false
}
