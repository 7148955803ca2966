//! Whether some window holds enough of each item.

ghost use Rattle.std.specs.Prelude.{◌≡◌, ◌+◌, ◌*◌, ◌<◌, ◌≤◌, IsTrue, nat_lt, true};
ghost use Rattle.std.specs.List.{list_any};
ghost use Rattle.ft_base.specs.declared.unit.TextUnit.{TextUnit};
ghost use Rattle.counted_shapes.specs.Shapes as shapes;
ghost use Rattle.count_merges.specs.Groups.{all_counted, backs_of, fronts_of, items_left, items_plain, lists_of_items};

use crate::item::CountedItem;
use crate::items::lead_of_items;
use crate::starting::start_items;
use crate::window::Window;
use ft_base::{FirstWords, Span, Steps};
use std::sync::ledger::Ledger;
use window_merges::Units;

/// Whether some window of so many units has enough hits of each item that lie in the span, and not too many, where the back of each group stands where
/// its front does and one of the items asks for a hit.
///
/// The sources go forward only. Of plain sources each hit that is passed counts two steps at most, in the front and in the back.
pub fn fit_in_window<H: FirstWords, U: Units, L: Ledger>(
    items: &mut Vec<CountedItem<H>>,
    span: Span,
    size: u32,
    units: &U,
    steps: &mut Steps<L>,
) -> bool
    ensures answer { (kind : TextUnit) → backs_of H.stand items.old.items ≡ fronts_of H.stand items.old.items
        → list_any (λ item. nat_lt 0 item.least) items.old.items ≡ true
        → result ≡ shapes.fit_in_window size kind (all_counted H.stand (U.number units.now) span items.old.items) }
    ensures lists { lists_of_items H.stand items.new.items ≡ lists_of_items H.stand items.old.items }
    ensures plain { items_plain H.plain items.new.items ≡ items_plain H.plain items.old.items }
    ensures counted { IsTrue (items_plain H.plain items.old.items) →
        steps.new + 2 * items_left H.stand items.new.items ≤ steps.old + 2 * items_left H.stand items.old.items }
    ensures grown { steps.old ≤ steps.new }
{
    if span.from >= span.to {
        return false;
    }
    let window = Window { size, to: span.to };
    start_items(items, span.from, window, units);
    let limit = u64::from(units.number_of(span.to - 1)) + u64::from(size) + 1;
    let mut last = 0;
    while last < limit {
        let next = lead_of_items(items, window, units, last, limit, steps);
        if next == last {
            return true;
        }
        last = next;
    }
    false
}

/// Whether some sentence or paragraph, by the numbers that the units give, has enough hits of each item that lie in the span, and not too many. It is
/// a window of one of them.
pub fn fit_in_unit<H: FirstWords, U: Units, L: Ledger>(
    items: &mut Vec<CountedItem<H>>,
    span: Span,
    units: &U,
    steps: &mut Steps<L>,
) -> bool
    ensures answer { (kind : TextUnit) → backs_of H.stand items.old.items ≡ fronts_of H.stand items.old.items
        → list_any (λ item. nat_lt 0 item.least) items.old.items ≡ true
        → result ≡ shapes.fit_in_unit kind (all_counted H.stand (U.number units.now) span items.old.items) }
    ensures lists { lists_of_items H.stand items.new.items ≡ lists_of_items H.stand items.old.items }
    ensures plain { items_plain H.plain items.new.items ≡ items_plain H.plain items.old.items }
    ensures counted { IsTrue (items_plain H.plain items.old.items) →
        steps.new + 2 * items_left H.stand items.new.items ≤ steps.old + 2 * items_left H.stand items.old.items }
    ensures grown { steps.old ≤ steps.new }
{
    fit_in_window(items, span, 1, units, steps)
}
