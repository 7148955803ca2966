//! Where the words of one variant stand, one after the other.

ghost use Rattle.std.specs.Prelude.{◌≡◌, ◌+◌, ◌<◌, ◌≤◌, ◌^◌, vec_len};
ghost use Rattle.place_merges.specs.steps.Searching.{Leads, Moved, SameFrom, item_fits, items_stand, shown_item, shown_items, shown_variant, variant_stands};

use crate::source::lead_of_sources;
use crate::{Item, Variant};
use ft_base::{FirstWords, Steps};
use std::sync::ledger::Ledger;

/// The place, where the item fits the word there; or else a later one, up to the limit, before which it fits none.
fn lead_of_item<H: FirstWords, L: Ledger>(
    item: &mut Item<H>,
    place: u32,
    limit: u32,
    steps: &mut Steps<L>,
) -> u32
    requires { place < limit }
    ensures leads { Leads (item_fits H.stand item.old) place limit result }
    ensures same { SameFrom place (item_fits H.stand item.new) (item_fits H.stand item.old) }
    ensures moved { Moved (shown_item H.stand H.plain item.old) (shown_item H.stand H.plain item.new) steps.old steps.new }
{
    match item {
        Item::Any => place,
        Item::Of(sources) => lead_of_sources(sources, place, limit, steps),
    }
}

/// The place, where the items fit the words from it on; or else a later one, up to the limit, before which they fit
/// nowhere: the first item that doesn't fit says how far the place may jump.
fn lead_of_items<H: FirstWords, L: Ledger>(
    items: &mut Vec<Item<H>>,
    place: u32,
    limit: u32,
    steps: &mut Steps<L>,
) -> u32
    requires order { place < limit }
    requires within { limit + vec_len items.old ≤ 2 ^ 32 }
    ensures leads { Leads (items_stand H.stand items.old.items) place limit result }
    ensures same { SameFrom place (items_stand H.stand items.new.items) (items_stand H.stand items.old.items) }
    ensures moved { Moved (shown_items H.stand H.plain items.old) (shown_items H.stand H.plain items.new) steps.old steps.new }
    ensures length { vec_len items.new ≡ vec_len items.old }
{
    for number in 0..items.len() {
        let offset = number as u32;
        let next = lead_of_item(&mut items[number], place + offset, limit + offset, steps);
        if next != place + offset {
            return next - offset;
        }
    }
    place
}

/// The same, where the item of that number is asked first: the others are sought only where it fits. A single item is asked once.
fn lead_with_first<H: FirstWords, L: Ledger>(
    items: &mut Vec<Item<H>>,
    first: usize,
    place: u32,
    limit: u32,
    steps: &mut Steps<L>,
) -> u32
    requires order { place < limit }
    requires within { limit + vec_len items.old ≤ 2 ^ 32 }
    ensures leads { Leads (items_stand H.stand items.old.items) place limit result }
    ensures same { SameFrom place (items_stand H.stand items.new.items) (items_stand H.stand items.old.items) }
    ensures moved { Moved (shown_items H.stand H.plain items.old) (shown_items H.stand H.plain items.new) steps.old steps.new }
    ensures length { vec_len items.new ≡ vec_len items.old }
{
    let count = items.len();
    if count < 2 {
        return lead_of_items(items, place, limit, steps);
    }
    if first >= count {
        return lead_of_items(items, place, limit, steps);
    }
    let offset = first as u32;
    let next = lead_of_item(&mut items[first], place + offset, limit + offset, steps);
    if next != place + offset {
        return next - offset;
    }
    lead_of_items(items, place, limit, steps)
}

/// The place, where the variant counts, begins there and ends before `to`; or else a later one, up to `to`,
/// before which it doesn't.
pub(crate) fn lead_of_variant<H: FirstWords, L: Ledger>(
    variant: &mut Variant<H>,
    place: u32,
    to: u32,
    steps: &mut Steps<L>,
) -> u32
    requires { place < to }
    ensures leads { Leads (variant_stands H.stand to variant.old) place to result }
    ensures same { SameFrom place (variant_stands H.stand to variant.new) (variant_stands H.stand to variant.old) }
    ensures moved { Moved (shown_variant H.stand H.plain variant.old) (shown_variant H.stand H.plain variant.new) steps.old steps.new }
{
    if !variant.counts {
        return to;
    }
    if variant.items.len() > (to - place) as usize {
        return to;
    }
    let after_first = variant.items.len().saturating_sub(1) as u32;
    let lead = variant.lead;
    lead_with_first(&mut variant.items, lead, place, to - after_first, steps)
}
