//! Whether a window holds enough of each item, and not too many.

ghost use Rattle.std.specs.Prelude.{◌≡◌, ◌<◌, ◌-◌, ◌^◌, ◌&&◌, ℕ, min, nat_le, true};
ghost use Rattle.std.specs.List.{list_all};
ghost use Rattle.counted_shapes.specs.Shapes.{is_at_most};
ghost use Rattle.place_merges.specs.steps.Searching.{Leads, Moved, SameFrom, shown_all};
ghost use Rattle.count_merges.specs.steps.Passing as spec;

use crate::groups::count_groups;
use crate::item::CountedItem;
use crate::window::Window;
use ft_base::{FirstWords, Steps};
use std::sync::ledger::Ledger;
use window_merges::Units;

/// The end of the window, where it has enough of each item; or else a later one, up to the limit, before which none has: the first item of which
/// there isn't enough, or too much, says how far the window may jump, and those behind it aren't asked.
pub(crate) fn lead_of_items<H: FirstWords, U: Units, L: Ledger>(
    items: &mut Vec<CountedItem<H>>,
    window: Window,
    units: &U,
    last: u64,
    limit: u64,
    steps: &mut Steps<L>,
) -> u64
    requires sound { list_all (spec.is_item_sound (U.number units.now) window) items.old.items ≡ true }
    requires below { last < limit }
    ensures leads { Leads (spec.holds_all H.stand (U.number units.now) window items.old.items) last limit result }
    ensures same { SameFrom last (spec.holds_all H.stand (U.number units.now) window items.new.items)
        (spec.holds_all H.stand (U.number units.now) window items.old.items) }
    ensures sound { list_all (spec.is_item_sound (U.number units.now) window) items.new.items ≡ true }
    ensures moved { Moved (shown_all (spec.shown_item H.stand H.plain) items.old.items) (shown_all (spec.shown_item H.stand H.plain) items.new.items) steps.old steps.new }
{
    for number in 0..items.len() {
        let next = lead_of_item(&mut items[number], window, units, last, limit, steps);
        if next != last {
            return next;
        }
    }
    last
}

/// The same of one item.
fn lead_of_item<H: FirstWords, U: Units, L: Ledger>(
    item: &mut CountedItem<H>,
    window: Window,
    units: &U,
    last: u64,
    limit: u64,
    steps: &mut Steps<L>,
) -> u64
    requires sound { spec.is_item_sound (U.number units.now) window item.old ≡ true }
    requires below { last < limit }
    ensures leads { Leads (spec.holds_item H.stand (U.number units.now) window item.old) last limit result }
    ensures same { SameFrom last (spec.holds_item H.stand (U.number units.now) window item.new) (spec.holds_item H.stand (U.number units.now) window item.old) }
    ensures sound { spec.is_item_sound (U.number units.now) window item.new ≡ true }
    ensures moved { Moved (spec.shown_item H.stand H.plain item.old) (spec.shown_item H.stand H.plain item.new) steps.old steps.new }
{
    let held = count_groups(&mut item.groups, window, units, last, limit, steps);
    if is_enough(held.count, item.least, item.most) {
        last
    } else {
        held.until
    }
}

/// Whether the count is one of those that are asked for. All of these are below the greatest number, at which a count stops.
fn is_enough(count: u64, least: u32, most: Option<u32>) -> bool
    ensures { (much : ℕ) → count ≡ min much (2 ^ 64 - 1) → result ≡ (nat_le least much && is_at_most most much) }
{
    if count < u64::from(least) {
        return false;
    }
    match most {
        Some(most) => count <= u64::from(most),
        None => true,
    }
}
