//! Whether words stand near one another.

ghost use Rattle.std.specs.Prelude.{◌≡◌, ◌+◌, ◌*◌, ◌<◌, ◌≤◌, IsTrue};
ghost use Rattle.window_merges.specs.Choices.{are_close, some_choice};
ghost use Rattle.window_merges.specs.Rows.{all_places, word_lists, words_left, words_plain};

use crate::first_hits::first_hits;
use ft_base::{FirstWords, Span, Steps};
use std::sync::ledger::Ledger;

/// Whether one hit of each word can be chosen in the span so that all begin among `size` places that follow one another.
///
/// The sources go forward only: as long as the hits found are too far apart, the window is moved on to end at the
/// farthest of them. Of plain sources each hit that is passed counts two steps at most.
pub fn stand_close<H: FirstWords, L: Ledger>(
    words: &mut Vec<Vec<H>>,
    span: Span,
    size: u32,
    steps: &mut Steps<L>,
) -> bool
    ensures close { result ≡ some_choice (are_close size) (all_places H.stand span words.old.items) }
    ensures lists { word_lists H.stand words.new.items ≡ word_lists H.stand words.old.items }
    ensures plain { words_plain H.plain words.new.items ≡ words_plain H.plain words.old.items }
    ensures counted { IsTrue (words_plain H.plain words.old.items) →
        steps.new + 2 * words_left H.stand words.new.items ≤ steps.old + 2 * words_left H.stand words.old.items }
    ensures grown { steps.old ≤ steps.new }
{
    if words.is_empty() {
        return false;
    }
    let mut low = span.from;
    while low < span.to {
        let far = first_hits(words, low, span.to, steps).far;
        if far >= span.to {
            return false;
        }
        if far - low < size {
            return true;
        }
        low = far - size + 1;
    }
    false
}
