//! Whether a phrase stands outside another one.

ghost use Rattle.std.specs.Prelude.{◌≡◌, ◌+◌, ◌*◌, ◌≤◌, IsTrue, ◌&&◌};
ghost use Rattle.place_merges.specs.Sources.{all_left, all_lists, all_plain, wanted_words};
ghost use Rattle.spot_merges.specs.Edges.{spots_of};
ghost use Rattle.spot_merges.specs.Outside.{stands_outside};

use crate::apart::stand_apart;
use crate::clear::stand_clear;
use ft_base::{FirstWords, Span, Steps};
use place_merges::Variant;
use std::sync::ledger::Ledger;

/// How a phrase stands outside another one.
#[derive(Clone, Copy)]
pub enum Outside {
    /// On words that the other one doesn't cover all of.
    Cover,
    /// With its first word in a window of so many words in which the other one doesn't begin.
    Window(u32),
}

/// Whether one of the left variants that count stands in the span outside each right one.
///
/// The sources of both sides go forward only. Of plain sources each hit that is passed counts two steps at most.
pub fn stand_outside<H: FirstWords, L: Ledger>(
    outside: Outside,
    left: &mut Vec<Variant<H>>,
    right: &mut Vec<Variant<H>>,
    span: Span,
    steps: &mut Steps<L>,
) -> bool
    ensures outside { result ≡ stands_outside outside
        (spots_of span (wanted_words H.stand left.old.items)) (spots_of span (wanted_words H.stand right.old.items)) }
    ensures left_lists { all_lists H.stand left.new.items ≡ all_lists H.stand left.old.items }
    ensures right_lists { all_lists H.stand right.new.items ≡ all_lists H.stand right.old.items }
    ensures left_plain { all_plain H.plain left.new.items ≡ all_plain H.plain left.old.items }
    ensures right_plain { all_plain H.plain right.new.items ≡ all_plain H.plain right.old.items }
    ensures counted { IsTrue (all_plain H.plain left.old.items && all_plain H.plain right.old.items) →
        steps.new + (2 * all_left H.stand left.new.items + 2 * all_left H.stand right.new.items) ≤
        steps.old + (2 * all_left H.stand left.old.items + 2 * all_left H.stand right.old.items) }
    ensures grown { steps.old ≤ steps.new }
{
    match outside {
        Outside::Cover => stand_apart(left, right, span, steps),
        Outside::Window(size) => stand_clear(left, right, span, size, steps),
    }
}
