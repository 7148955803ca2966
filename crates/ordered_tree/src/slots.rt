//! The slots of a tree, in blocks that the trees of a document share.

ghost use Rattle.std.specs.Prelude.{◌≡◌, ◌<◌, ◌^◌, length, map, slice_index_or, All, IfOk};
ghost use Rattle.ordered_tree.specs.steps.Heads.{head_of};
ghost use Rattle.ordered_tree.specs.steps.LinksBelow.{LinksBelow};
ghost use Rattle.ordered_tree.specs.steps.Parts.{core_of, slot_of, whole, wholes};

use crate::NodeRef;
use crate::around::Around;
use crate::head::{Head, heads_of};
use crate::slot::{Held, Slot};
use crate::slot_core::SlotCore;
use ft_base::Memory;
use shared_vector::SharedVector;
use std::alloc::Global;
use std::marker::Model;

/// Slots by their numbers, which contracts see as their list. What walks look at stands in heads, the rest in cores. Trees
/// that were copied or edited share the blocks of both which are the same; no core tells how many words stand before it, so
/// that words which come in or go out change the heads after them alone.
#[derive(Drop)]
pub(crate) struct Slots {
    cores: SharedVector<SlotCore>,
    heads: SharedVector<Head>,
}

impl Model for Slots {
    ghost use Rattle.std.specs.Prelude.{◌≡◌, List, length, map};
    ghost use Rattle.std.specs.Coded.{coded_list};
    ghost use Rattle.ordered_tree.specs.declared.slot.Slot as declared_slot;
    ghost use Rattle.ordered_tree.specs.steps.Heads.{head_of};
    ghost use Rattle.ordered_tree.specs.steps.Parts.{wholes};

    ghost Value = { List declared_slot.Slot };

    ghost view = { λ inside. wholes inside.cores inside.heads };

    ghost invariant = { λ inside. record {
      even : length inside.heads ≡ length inside.cores;
      headed : inside.heads ≡ map head_of (wholes inside.cores inside.heads);
    } };
}

/// A slot as it stands in its parts.
#[derive(Clone, Copy)]
pub(crate) struct SlotAt<'a> {
    pub(crate) held: &'a Held,
    pub(crate) around: Around,
    pub(crate) first_child: Option<NodeRef>,
    pub(crate) last_child: Option<NodeRef>,
    pub(crate) words: u32,
}

impl Slots {
    /// The slots of the vector.
    pub(crate) fn from_vec(alloc: Global, slots: Vec<Slot>) -> Result<Slots, Memory>
        requires { All (LinksBelow (2 ^ 31)) slots.items }
        ensures { IfOk result (λ made. made ≡ slots.items) }
    {
        let Ok(heads) = heads_of(alloc, &slots) else {
            drop(slots);
            return Err(Memory);
        };
        let cores = cores_of(alloc, slots)?;
        let heads = SharedVector::from_vec(heads)?;
        let cores = SharedVector::from_vec(cores)?;
        Ok(Slots { cores, heads })
    }

    /// The same slots once more; none is copied.
    pub(crate) fn share(&self) -> Result<Slots, Memory>
        ensures { IfOk result (λ copy. copy ≡ self.now) }
    {
        let cores = self.cores.share()?;
        let heads = self.heads.share()?;
        Ok(Slots { cores, heads })
    }

    /// Takes each block that the other slots have alike from them. The slots stay as they are.
    pub(crate) fn share_blocks_of(&mut self, other: &Slots)
        ensures { self.new ≡ self.old }
    {
        self.cores.share_blocks_of(&other.cores);
        self.heads.share_blocks_of(&other.heads);
    }

    /// How many there are.
    pub(crate) fn len(&self) -> usize
        ensures { result ≡ length self.now }
    {
        self.cores.len()
    }

    /// The slot of that number.
    pub(crate) fn get(&self, at: usize) -> SlotAt<'_>
        requires { at < length self.now }
        ensures { slot_of result ≡ slice_index_or self.now at (slot_of result) }
    {
        let core = self.cores.get(at);
        let head = self.heads.get(at);
        whole(core, head)
    }

    /// The head of the slot of that number.
    pub(crate) fn head(&self, at: usize) -> &Head
        requires { at < length self.now }
        ensures { result.now ≡ slice_index_or (map head_of self.now) at result.now }
    {
        self.heads.get(at)
    }
}

/// The slot of a core and a head.
fn whole<'a>(core: &'a SlotCore, head: &Head) -> SlotAt<'a>
    ensures { slot_of result ≡ whole core.now head.now }
{
    SlotAt {
        held: &core.held,
        around: Around {
            parent: head.parent.node(),
            previous: core.previous,
            next: head.next.node(),
            number: core.number,
            before: head.before,
        },
        first_child: head.first_child.node(),
        last_child: core.last_child,
        words: head.words,
    }
}

/// The cores of slots, in their order.
fn cores_of(alloc: Global, slots: Vec<Slot>) -> Result<Vec<SlotCore>, Memory>
    ensures { IfOk result (λ cores. cores.items ≡ map core_of slots.items) }
{
    let mut cores = Vec::with_capacity(alloc, slots.len())?;
    for slot in slots {
        cores.push(SlotCore {
            held: slot.held,
            previous: slot.around.previous,
            number: slot.around.number,
            last_child: slot.last_child,
        })?;
    }
    Ok(cores)
}
