//! What walks over nodes look at of each, side by side in memory.

ghost use Rattle.std.specs.Prelude.{◌≡◌, ◌^◌, All, IfOk, map};
ghost use Rattle.ordered_tree.specs.steps.Heads as spec;
ghost use Rattle.ordered_tree.specs.steps.LinksBelow.{LinksBelow};

use crate::element_name::{mark_of, same_mark};
use crate::link::Link;
use crate::slot::{Held, Slot};
use crate::slot_core::same_link;
use ft_base::Memory;
use shared_list::Share;
use shared_vector::Same;
use std::alloc::Global;

/// The links of a node that walks follow, the mark of its name, and where its words stand. What else a slot has is kept
/// apart, so that a walk which looks at heads alone goes through less memory.
#[derive(Clone, Copy)]
pub(crate) struct Head {
    pub(crate) first_child: Link,
    pub(crate) next: Link,
    pub(crate) parent: Link,
    /// The mark of an element's name; of a text, zeros
    pub(crate) mark: [u8; 8],
    /// How many words of the document stand before it.
    pub(crate) before: u32,
    /// How many words it has.
    pub(crate) words: u32,
}

impl Share for Head {
    fn copies(alloc: Global, items: &[Head]) -> Result<Vec<Head>, Memory> {
        Ok(Vec::from_slice(alloc, items)?)
    }
}

impl Same for Head {
    fn is_same(&self, other: &Head) -> bool {
        self.before == other.before
            && self.words == other.words
            && same_mark(&self.mark, &other.mark)
            && same_link(self.first_child.node(), other.first_child.node())
            && same_link(self.next.node(), other.next.node())
            && same_link(self.parent.node(), other.parent.node())
    }
}

/// The heads of slots, in their order.
pub(crate) fn heads_of(alloc: Global, slots: &Vec<Slot>) -> Result<Vec<Head>, Memory>
    requires { All (LinksBelow (2 ^ 31)) slots.now.items }
    ensures { IfOk result (λ heads. heads.items ≡ map spec.head_of slots.now.items) }
{
    let mut heads = Vec::with_capacity(alloc, slots.len())?;
    for slot in slots.as_slice() {
        heads.push(head_of(slot))?;
    }
    Ok(heads)
}

/// The head of a slot.
fn head_of(slot: &Slot) -> Head
    requires { LinksBelow (2 ^ 31) slot.now }
    ensures { result ≡ spec.head_of slot.now }
{
    Head {
        first_child: Link::to(slot.first_child),
        next: Link::to(slot.around.next),
        parent: Link::to(slot.around.parent),
        mark: mark_of_held(&slot.held),
        before: slot.around.before,
        words: slot.words,
    }
}

/// The mark of what a slot holds.
fn mark_of_held(held: &Held) -> [u8; 8]
    ensures { result ≡ spec.mark_of_held held.now }
{
    match held {
        Held::Element { name, .. } => mark_of(name.as_str()),
        Held::Text { .. } | Held::Free => [0; 8],
    }
}
