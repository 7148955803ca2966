//! Whether a phrase stands where a window round its first word has none of another one.

ghost use Rattle.std.specs.Prelude.{◌≡◌, ℕ, suc, ◌+◌, ◌*◌, ◌<◌, ◌≤◌, IsTrue, ◌&&◌, min};
ghost use Rattle.std.specs.Option.{ForSome};
ghost use Rattle.place_merges.specs.Sources.{all_left, all_lists, all_plain, wanted_words};
ghost use Rattle.spot_merges.specs.Clear.{begins, some_clear};
ghost use Rattle.spot_merges.specs.Edges.{spots_of};
ghost use Rattle.spot_merges.specs.steps.Clearing as spec;
ghost use Rattle.spot_merges.specs.steps.Covering.{SameAt, spots_ahead};

use ft_base::{FirstWords, Span, Steps};
use place_merges::{Spot, Variant, next_lead, next_spot};
use std::sync::ledger::Ledger;

/// Some spots of a phrase that were passed.
#[derive(Clone, Copy)]
pub(crate) struct Passed {
    /// The place of the last one.
    pub(crate) last: Option<u32>,
    /// The first spot after them; or else one of no words, at a place before which none of the later ones begins.
    pub(crate) lead: Spot,
}

/// Whether one of the left variants that count stands in the span where some window of so many words that has its first word has that of no
/// right variant.
///
/// Both sides go forward only: for each spot of the left side, the right one is led on until it is past the place where that spot begins,
/// and keeps the place of the last one that it passed; then it is led on as far as a window reaches that begins behind that one. A spot
/// further on leaves room for the window, so none is looked for there. Of plain sources each hit that is passed counts two steps at most.
pub(crate) fn stand_clear<H: FirstWords, L: Ledger>(
    left: &mut Vec<Variant<H>>,
    right: &mut Vec<Variant<H>>,
    span: Span,
    size: u32,
    steps: &mut Steps<L>,
) -> bool
    ensures clear { result ≡ some_clear size
        (begins (spots_of span (wanted_words H.stand left.old.items))) (begins (spots_of span (wanted_words H.stand right.old.items))) }
    ensures left_lists { all_lists H.stand left.new.items ≡ all_lists H.stand left.old.items }
    ensures right_lists { all_lists H.stand right.new.items ≡ all_lists H.stand right.old.items }
    ensures left_plain { all_plain H.plain left.new.items ≡ all_plain H.plain left.old.items }
    ensures right_plain { all_plain H.plain right.new.items ≡ all_plain H.plain right.old.items }
    ensures counted { IsTrue (all_plain H.plain left.old.items && all_plain H.plain right.old.items) →
        steps.new + (2 * all_left H.stand left.new.items + 2 * all_left H.stand right.new.items) ≤
        steps.old + (2 * all_left H.stand left.old.items + 2 * all_left H.stand right.old.items) }
    ensures grown { steps.old ≤ steps.new }
{
    let mut after = Spot {
        place: span.from,
        words: 0,
    };
    let mut passed = Passed {
        last: None,
        lead: after,
    };
    while let Some(at) = next_spot(left, after, span.to, steps) {
        passed = pass_up_to(right, passed, at.place, span.to, steps);
        passed = look_ahead(right, passed, at.place, size, span.to, steps);
        if has_window(passed, at.place, size) {
            return true;
        }
        after = at;
    }
    false
}

/// Passes the spots that begin at the place or before it.
///
/// A window that holds the place, or a later one, and one of those that were passed has the last of them, too.
fn pass_up_to<H: FirstWords, L: Ledger>(
    variants: &mut Vec<Variant<H>>,
    before: Passed,
    place: u32,
    to: u32,
    steps: &mut Steps<L>,
) -> Passed
    requires before { place < to }
    requires behind { ForSome before.last (λ last. last ≤ place) }
    requires ordered { ForSome before.last (λ last. last ≤ before.lead.place) }
    ensures same { (size : ℕ) →
        SameAt place (spec.is_clear H.stand to size variants.new.items result) (spec.is_clear H.stand to size variants.old.items before) }
    ensures behind { ForSome result.last (λ last. last ≤ place) }
    ensures ahead { place < result.lead.place }
    ensures lists { all_lists H.stand variants.new.items ≡ all_lists H.stand variants.old.items }
    ensures plain { all_plain H.plain variants.new.items ≡ all_plain H.plain variants.old.items }
    ensures counted { IsTrue (all_plain H.plain variants.old.items) →
        steps.new + 2 * all_left H.stand variants.new.items ≤ steps.old + 2 * all_left H.stand variants.old.items }
    ensures grown { steps.old ≤ steps.new }
{
    let mut passed = before;
    while passed.lead.place <= place {
        let last = last_with(passed.last, passed.lead);
        let lead = next_lead(variants, passed.lead, to, steps);
        passed = Passed { last, lead };
    }
    passed
}

/// The place of the last of some spots and one more: a spot of no words stands nowhere.
fn last_with(last: Option<u32>, spot: Spot) -> Option<u32>
    ensures { result ≡ spec.last_with last spot }
{
    if spot.words > 0 {
        Some(spot.place)
    } else {
        last
    }
}

/// Leads on to the next spot, but no further than a window of so many words reaches that begins behind the last one that was passed.
/// Where that one begins at the place itself there is no window, and where none was passed one that ends there has none of them: then
/// the next spot need not be known.
fn look_ahead<H: FirstWords, L: Ledger>(
    variants: &mut Vec<Variant<H>>,
    passed: Passed,
    place: u32,
    size: u32,
    to: u32,
    steps: &mut Steps<L>,
) -> Passed
    ensures same { SameAt place (spec.is_clear H.stand to size variants.new.items result) (spec.is_clear H.stand to size variants.old.items passed) }
    ensures last { result.last ≡ passed.last }
    ensures forward { passed.lead.place ≤ result.lead.place }
    ensures led { ForSome result.last (λ last. last < place → spec.IsLed (min (suc (last + size)) to) result.lead) }
    ensures lists { all_lists H.stand variants.new.items ≡ all_lists H.stand variants.old.items }
    ensures plain { all_plain H.plain variants.new.items ≡ all_plain H.plain variants.old.items }
    ensures counted { IsTrue (all_plain H.plain variants.old.items) →
        steps.new + 2 * all_left H.stand variants.new.items ≤ steps.old + 2 * all_left H.stand variants.old.items }
    ensures grown { steps.old ≤ steps.new }
{
    let Some(last) = passed.last else {
        return passed;
    };
    if last >= place {
        return passed;
    }
    let end = last.saturating_add(size).saturating_add(1).min(to);
    let lead = lead_up_to(variants, passed.lead, end, to, steps);
    Passed {
        last: passed.last,
        lead,
    }
}

/// Leads on to a spot, or up to the place where there is none before it.
fn lead_up_to<H: FirstWords, L: Ledger>(
    variants: &mut Vec<Variant<H>>,
    from: Spot,
    end: u32,
    to: u32,
    steps: &mut Steps<L>,
) -> Spot
    requires { end ≤ to }
    ensures spots { spots_ahead H.stand to variants.new.items result ≡ spots_ahead H.stand to variants.old.items from }
    ensures forward { from.place ≤ result.place }
    ensures led { spec.IsLed end result }
    ensures lists { all_lists H.stand variants.new.items ≡ all_lists H.stand variants.old.items }
    ensures plain { all_plain H.plain variants.new.items ≡ all_plain H.plain variants.old.items }
    ensures counted { IsTrue (all_plain H.plain variants.old.items) →
        steps.new + 2 * all_left H.stand variants.new.items ≤ steps.old + 2 * all_left H.stand variants.old.items }
    ensures grown { steps.old ≤ steps.new }
{
    let mut lead = from;
    while lead.words == 0 && lead.place < end {
        lead = next_lead(variants, lead, to, steps);
    }
    lead
}

/// Whether a window of so many words round the place has room between the last spot that was passed and the next one.
fn has_window(passed: Passed, place: u32, size: u32) -> bool
    requires ahead { place < passed.lead.place }
    ensures { result ≡ spec.has_window size passed.last passed.lead place }
{
    match passed.last {
        Some(last) => size > 0 && last < place && has_room(passed.lead, last, size),
        None => size > 0,
    }
}

/// Whether so many words have room between the place and the next spot.
fn has_room(lead: Spot, place: u32, size: u32) -> bool
    requires ahead { place < lead.place }
    ensures { result ≡ spec.has_room size place lead }
{
    lead.words == 0 || lead.place - place > size
}
