//! Items before the first window of a text.

ghost use Rattle.std.specs.Prelude.{◌≡◌, ◌≤◌, map};
ghost use Rattle.count_merges.specs.steps.Passing as spec;

use crate::item::{CountedItem, VariantGroup};
use crate::passing::passed_before;
use crate::window::Window;
use window_merges::Units;

/// Has no spots passed of any item, in a text that begins at the place.
pub(crate) fn start_items<H, U: Units>(
    items: &mut Vec<CountedItem<H>>,
    from: u32,
    window: Window,
    units: &U,
)
    requires { from ≤ window.to }
    ensures { map spec.parts_of items.new.items ≡ map (spec.started_parts (U.number units.now) window from) (map spec.parts_of items.old.items) }
{
    for number in 0..items.len() {
        start_groups(&mut items[number].groups, from, window, units);
    }
}

fn start_groups<H, U: Units>(
    groups: &mut Vec<VariantGroup<H>>,
    from: u32,
    window: Window,
    units: &U,
)
    requires { from ≤ window.to }
    ensures { groups.new.items ≡ map (spec.started (U.number units.now) window from) groups.old.items }
{
    for number in 0..groups.len() {
        start_group(&mut groups[number], from, window, units);
    }
}

fn start_group<H, U: Units>(group: &mut VariantGroup<H>, from: u32, window: Window, units: &U)
    requires { from ≤ window.to }
    ensures { group.new ≡ spec.started (U.number units.now) window from group.old }
{
    let entering = Window {
        size: 0,
        to: window.to,
    };
    group.come = passed_before(from, group.words, entering, units);
    group.gone = passed_before(from, group.words, window, units);
}
