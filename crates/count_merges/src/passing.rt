//! The spots of one group that a window has passed, with its end or with its beginning.

ghost use Rattle.std.specs.Prelude.{◌≡◌, ◌+◌, ◌*◌, ◌<◌, ◌≤◌, ◌^◌, ◌-◌, IsTrue, cond, true};
ghost use Rattle.place_merges.specs.Sources.{all_left, all_lists, all_plain};
ghost use Rattle.count_merges.specs.steps.Passing as spec;

use crate::window::Window;
use ft_base::{FirstWords, Steps};
use place_merges::{Spot, Variant, next_lead};
use std::sync::ledger::Ledger;
use window_merges::Units;

/// Some spots of a group that were passed.
#[derive(Clone, Copy)]
pub(crate) struct Passed {
    /// How many they are.
    pub(crate) count: u64,
    /// The first spot after them; or else one of no words, at a place before which none of the later ones begins.
    pub(crate) lead: Spot,
    /// The first end of a window that may pass one more, or the greatest number where none does.
    pub(crate) event: u64,
}

impl Passed {
    /// No spots of no text.
    pub(crate) const NONE: Passed = Passed {
        count: 0,
        lead: Spot { place: 0, words: 0 },
        event: u64::MAX,
    };
}

/// Before the first spot of a text that begins at the place.
pub(crate) fn passed_before<U: Units>(from: u32, words: u32, window: Window, units: &U) -> Passed
    requires { from ≤ window.to }
    ensures { result ≡ spec.none_passed (U.number units.now) window.size words window.to from }
{
    let lead = Spot {
        place: from,
        words: 0,
    };
    Passed {
        count: 0,
        lead,
        event: next_event(from, words, window, units),
    }
}

/// The end of the first window that has passed so many words that begin at the place: their last word, or as many units after their first word as a
/// window has. It is the greatest number where the text ends before they do.
fn next_event<U: Units>(place: u32, words: u32, window: Window, units: &U) -> u64
    requires { place ≤ window.to }
    ensures { result ≡ spec.next_event (U.number units.now) window.size words window.to place }
{
    if words == 0 || words > window.to - place {
        return u64::MAX;
    }
    let last = u64::from(units.number_of(place + (words - 1)));
    let gone = u64::from(units.number_of(place)) + u64::from(window.size);
    last.max(gone)
}

/// Passes the spots of so many words that the window ending at `last` has passed. A window of no size passes a spot as soon as it has come in.
///
/// The sources go forward only, and no further than to the first spot that isn't passed. Of plain sources each hit that is passed counts two
/// steps at most.
pub(crate) fn pass_up_to<H: FirstWords, U: Units, L: Ledger>(
    variants: &mut Vec<Variant<H>>,
    before: Passed,
    words: u32,
    window: Window,
    units: &U,
    last: u64,
    steps: &mut Steps<L>,
) -> Passed
    requires sound { spec.is_sound (U.number units.now) window.size words window.to before ≡ true }
    requires below { last < 2 ^ 64 - 1 }
    ensures same { spec.SameCounts last
        (spec.passed_by H.stand (U.number units.now) window.size words window.to variants.new.items result)
        (spec.passed_by H.stand (U.number units.now) window.size words window.to variants.old.items before) }
    ensures ahead { last < result.event }
    ensures sound { spec.is_sound (U.number units.now) window.size words window.to result ≡ true }
    ensures lists { all_lists H.stand variants.new.items ≡ all_lists H.stand variants.old.items }
    ensures plain { all_plain H.plain variants.new.items ≡ all_plain H.plain variants.old.items }
    ensures counted { IsTrue (all_plain H.plain variants.old.items) →
        steps.new + 2 * all_left H.stand variants.new.items ≤ steps.old + 2 * all_left H.stand variants.old.items }
    ensures grown { steps.old ≤ steps.new }
{
    let mut passed = before;
    while passed.event <= last {
        let count = count_with(passed.count, passed.lead, words);
        let lead = next_lead(variants, passed.lead, window.to, steps);
        let event = next_event(lead.place, words, window, units);
        passed = Passed { count, lead, event };
    }
    passed
}

/// The count, with one more where the spot has so many words.
fn count_with(count: u64, spot: Spot, words: u32) -> u64
    requires { count < 2 ^ 64 - 1 }
    ensures { result ≡ spec.count_with words count spot }
{
    if spot.words > 0 && spot.words == words {
        count + 1
    } else {
        count
    }
}
