//! Whether words stand in order.

ghost use Rattle.std.specs.Prelude.{◌≡◌, ◌+◌, ◌*◌, ◌≤◌, IsTrue};
ghost use Rattle.window_merges.specs.Choices.{are_in_order, some_choice};
ghost use Rattle.window_merges.specs.Rows.{all_places, word_lists, words_left, words_plain};

use ft_base::{FirstWords, Span, Steps};
use place_merges::lead_of_sources;
use std::sync::ledger::Ledger;

/// Whether one hit of each word can be chosen in the span so that none begins before one of an earlier word.
///
/// The sources go forward only: for each word in turn the first hit is taken that doesn't begin before the last one.
/// Of plain sources each hit that is passed counts two steps at most.
pub fn stand_in_order<H: FirstWords, L: Ledger>(
    words: &mut Vec<Vec<H>>,
    span: Span,
    steps: &mut Steps<L>,
) -> bool
    ensures ordered { result ≡ some_choice are_in_order (all_places H.stand span words.old.items) }
    ensures lists { word_lists H.stand words.new.items ≡ word_lists H.stand words.old.items }
    ensures plain { words_plain H.plain words.new.items ≡ words_plain H.plain words.old.items }
    ensures counted { IsTrue (words_plain H.plain words.old.items) →
        steps.new + 2 * words_left H.stand words.new.items ≤ steps.old + 2 * words_left H.stand words.old.items }
    ensures grown { steps.old ≤ steps.new }
{
    if span.from >= span.to {
        return words.is_empty();
    }
    let mut place = span.from;
    for number in 0..words.len() {
        place = lead_of_sources(&mut words[number], place, span.to, steps);
        if place >= span.to {
            return false;
        }
    }
    true
}
