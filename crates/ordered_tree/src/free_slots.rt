//! Slots that no node has.

ghost use Rattle.std.specs.Prelude.{◌≡◌, ◌≢◌, ◌+◌, ◌<◌, ◌^◌, ℕ, length, replicate, slice_index_or, All, IfOk};
ghost use Rattle.ordered_tree.specs.Slots.{free_from, no_slot};
ghost use Rattle.ordered_tree.specs.declared.slot.Held.TheVariants.{Free};
ghost use Rattle.ordered_tree.specs.declared.slot.Slot as declared_slot;
ghost use Rattle.ordered_tree.specs.steps.FreeSlots.{Leads, free_numbers, is_free, spare};
ghost use Rattle.ordered_tree.specs.steps.LinksBelow.{LinksBelow};

use crate::around::Around;
use crate::slot::{Held, Slot};
use crate::slots::Slots;
use crate::{NodeRef, NodeRefs};
use ft_base::Memory;
use std::alloc::Global;

/// So many free slots. None is linked to another.
pub(crate) fn free_slots(alloc: Global, count: usize) -> Result<Vec<Slot>, Memory>
    ensures { IfOk result (λ slots. slots.items ≡ replicate count no_slot) }
{
    let mut slots = Vec::with_capacity(alloc, count)?;
    while slots.len() < count {
        slots.push(Slot {
            held: Held::Free,
            around: Around::root(),
            first_child: None,
            last_child: None,
            words: 0,
        })?;
    }
    Ok(slots)
}

/// Links the free slots with one another, from the lowest number to the highest, and gives the first of them.
pub(crate) fn link_free(slots: &mut Vec<Slot>) -> Option<NodeRef>
    requires few { length slots.old.items < 2 ^ 31 }
    ensures long { length slots.new.items ≡ length slots.old.items }
    ensures kept { (number : ℕ) (d : declared_slot.Slot) → (slice_index_or slots.old.items number d).held ≢ Free
        → slice_index_or slots.new.items number d ≡ slice_index_or slots.old.items number d }
    ensures free { free_from (length slots.new.items) slots.new.items result ≡ free_numbers 0 slots.old.items }
    ensures below { All (LinksBelow (2 ^ 31)) slots.old.items → All (LinksBelow (2 ^ 31)) slots.new.items }
{
    let mut free = None;
    let mut left = slots.len();
    while 0 < left {
        left -= 1;
        if is_free(&slots[left]) {
            slots[left].around.next = free;
            free = Some(NodeRef(left as u32));
        }
    }
    free
}

/// Whether a slot is free.
fn is_free(slot: &Slot) -> bool
    ensures { result ≡ is_free slot.now.held }
{
    match &slot.held {
        Held::Free => true,
        Held::Element { .. } | Held::Text { .. } => false,
    }
}

/// References that no node has: those of the free slots, where a link names the first, and then the numbers from `slots.len()` on.
pub(crate) fn spare_refs(
    alloc: Global,
    slots: &Slots,
    free: Option<NodeRef>,
    count: usize,
) -> Result<NodeRefs, Memory>
    requires leads { Leads slots.now free }
    requires few { length slots.now + count < 2 ^ 32 }
    ensures { IfOk result (λ refs. refs ≡ spare count slots.now free (length slots.now)) }
{
    let mut refs = NodeRefs::new(alloc);
    let mut link = free;
    let mut number = slots.len();
    while refs.len() < count {
        match link {
            Some(here) => {
                refs.push(here)?;
                link = slots.get(here.0 as usize).around.next;
            }
            None => {
                refs.push(NodeRef(number as u32))?;
                number += 1;
            }
        }
    }
    Ok(refs)
}
