//! How many hits a window holds, of one group of variants and of several.

ghost use Rattle.std.specs.Prelude.{◌≡◌, ◌<◌, ◌≤◌, ◌^◌, ◌-◌, true};
ghost use Rattle.std.specs.List.{list_all};
ghost use Rattle.place_merges.specs.steps.Searching.{Moved, shown_all};
ghost use Rattle.count_merges.specs.steps.Passing as spec;

use crate::item::VariantGroup;
use crate::passing::pass_up_to;
use crate::window::Window;
use ft_base::{FirstWords, Steps};
use std::sync::ledger::Ledger;
use window_merges::Units;

/// What a window holds.
#[derive(Clone, Copy)]
pub(crate) struct Held {
    /// How many hits.
    pub(crate) count: u64,
    /// The end of the first window after it that may hold another number of them.
    pub(crate) until: u64,
}

/// What the window that ends at `last` holds of all groups, and up to which end the next ones hold the same, but no further than the limit. The
/// count stops at the greatest number.
pub(crate) fn count_groups<H: FirstWords, U: Units, L: Ledger>(
    groups: &mut Vec<VariantGroup<H>>,
    window: Window,
    units: &U,
    last: u64,
    limit: u64,
    steps: &mut Steps<L>,
) -> Held
    requires sound { list_all (spec.is_group_sound (U.number units.now) window) groups.old.items ≡ true }
    requires below { last < limit }
    ensures stays { spec.Stays (spec.count_together H.stand (U.number units.now) window groups.old.items) last result.until result.count }
    ensures within { result.until ≤ limit }
    ensures same { spec.SameCounts last (spec.held_together H.stand (U.number units.now) window groups.new.items)
        (spec.held_together H.stand (U.number units.now) window groups.old.items) }
    ensures sound { list_all (spec.is_group_sound (U.number units.now) window) groups.new.items ≡ true }
    ensures moved { Moved (shown_all (spec.shown_group H.stand H.plain) groups.old.items) (shown_all (spec.shown_group H.stand H.plain) groups.new.items) steps.old steps.new }
{
    let mut count: u64 = 0;
    let mut until = limit;
    for number in 0..groups.len() {
        let held = count_group(&mut groups[number], window, units, last, steps);
        count = count.saturating_add(held.count);
        until = until.min(held.until);
    }
    Held { count, until }
}

/// The same of one group: the hits that have come in, but for those that have gone out. Where the back stands where the front does, no more of them
/// have gone than have come.
fn count_group<H: FirstWords, U: Units, L: Ledger>(
    group: &mut VariantGroup<H>,
    window: Window,
    units: &U,
    last: u64,
    steps: &mut Steps<L>,
) -> Held
    requires sound { spec.is_group_sound (U.number units.now) window group.old ≡ true }
    requires below { last < 2 ^ 64 - 1 }
    ensures stays { spec.Stays (spec.held H.stand (U.number units.now) window group.old) last result.until result.count }
    ensures same { spec.SameCounts last (spec.held H.stand (U.number units.now) window group.new) (spec.held H.stand (U.number units.now) window group.old) }
    ensures sound { spec.is_group_sound (U.number units.now) window group.new ≡ true }
    ensures moved { Moved (spec.shown_group H.stand H.plain group.old) (spec.shown_group H.stand H.plain group.new) steps.old steps.new }
{
    let entering = Window {
        size: 0,
        to: window.to,
    };
    let words = group.words;
    group.come = pass_up_to(
        &mut group.front,
        group.come,
        words,
        entering,
        units,
        last,
        steps,
    );
    group.gone = pass_up_to(
        &mut group.back,
        group.gone,
        words,
        window,
        units,
        last,
        steps,
    );
    Held {
        count: group.come.count.saturating_sub(group.gone.count),
        until: group.come.event.min(group.gone.event),
    }
}
