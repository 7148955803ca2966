//! Whether words stand in one unit of the text.

ghost use Rattle.std.specs.Prelude.{◌≡◌, ◌+◌, ◌-◌, ◌*◌, ◌<◌, ◌≤◌, ◌^◌, ℕ, IsTrue};
ghost use Rattle.window_merges.specs.Choices.{are_in_one, some_choice};
ghost use Rattle.window_merges.specs.Rows.{all_places, word_lists, words_left, words_plain};

use crate::first_hits::{FirstHits, first_hits};
use crate::units::Units;
use ft_base::{FirstWords, Span, Steps};
use std::sync::ledger::Ledger;

/// Whether one hit of each word can be chosen in the span so that all begin in one unit.
///
/// The sources go forward only: as long as the hits found lie in several units, the search is moved on to the unit of the
/// farthest of them. Of plain sources each hit that is passed counts two steps at most.
pub fn stand_together<H: FirstWords, U: Units, L: Ledger>(
    words: &mut Vec<Vec<H>>,
    span: Span,
    units: &U,
    steps: &mut Steps<L>,
) -> bool
    ensures together { result ≡ some_choice (are_in_one (U.number units.now)) (all_places H.stand span words.old.items) }
    ensures lists { word_lists H.stand words.new.items ≡ word_lists H.stand words.old.items }
    ensures plain { words_plain H.plain words.new.items ≡ words_plain H.plain words.old.items }
    ensures counted { IsTrue (words_plain H.plain words.old.items) →
        steps.new + 2 * words_left H.stand words.new.items ≤ steps.old + 2 * words_left H.stand words.old.items }
    ensures grown { steps.old ≤ steps.new }
{
    if words.is_empty() {
        return true;
    }
    let mut low = span.from;
    while low < span.to {
        let FirstHits { near, far } = first_hits(words, low, span.to, steps);
        if far >= span.to {
            return false;
        }
        if units.number_of(near) == units.number_of(far) {
            return true;
        }
        low = first_place(units, near, far);
    }
    false
}

/// The first place of the unit round `far`, which begins after `low`.
fn first_place<U: Units>(units: &U, low: u32, far: u32) -> u32
    requires order { low < far }
    requires within { far < 2 ^ 32 - 1 }
    requires apart { U.number units.now low < U.number units.now far }
    ensures after { low < result }
    ensures reached { result ≤ far }
    ensures in_unit { U.number units.now result ≡ U.number units.now far }
    ensures first { (other : ℕ) → other < result → U.number units.now other < U.number units.now far }
{
    let unit = units.number_of(far);
    let mut before = low;
    let mut first = far;
    while first - before > 1 {
        let middle = before + (first - before) / 2;
        if units.number_of(middle) < unit {
            before = middle;
        } else {
            first = middle;
        }
    }
    first
}
