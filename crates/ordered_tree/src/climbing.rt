ghost use Rattle.std.specs.Prelude.{◌≡◌, ◌++◌, OnOk};
ghost use Rattle.ordered_tree.specs.steps.Climbing.{Climbs, climbed};

use crate::slots::Slots;
use crate::{NodeRef, Place};
use ft_base::Memory;

/// Puts the child numbers that lead to a node, above which at most so many elements stand, to the end.
pub(crate) fn add_place(
    slots: &Slots,
    here: NodeRef,
    levels: usize,
    place: &mut Place,
) -> Result<(), Memory>
    requires { Climbs levels slots.now here }
    ensures { OnOk result (place.new ≡ place.old ++ climbed levels slots.now here) }
{
    let around = slots.get(here.0 as usize).around;
    if let Some(parent) = around.parent {
        add_place(slots, parent, levels - 1, place)?;
        place.push(around.number)?;
    }
    Ok(())
}
