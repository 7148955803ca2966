//! What a tree keeps of a slot beside its head.

ghost use Rattle.std.specs.Prelude.{◌≡◌, IfOk, IsTrue};

use crate::NodeRef;
use crate::slot::Held;
use ft_base::Memory;
use shared_list::Share;
use shared_vector::Same;
use std::alloc::Global;

/// What a slot holds, and the links that its head doesn't have.
#[derive(Drop)]
pub(crate) struct SlotCore {
    pub(crate) held: Held,
    pub(crate) previous: Option<NodeRef>,
    /// Its number among the children of its parent, from 1; 0 for the root.
    pub(crate) number: u32,
    pub(crate) last_child: Option<NodeRef>,
}

impl Share for SlotCore {
    fn copies(alloc: Global, items: &[SlotCore]) -> Result<Vec<SlotCore>, Memory> {
        let mut copies = Vec::with_capacity(alloc, items.len())?;
        for core in items {
            copies.push(share_core(core)?)?;
        }
        Ok(copies)
    }
}

impl Same for SlotCore {
    fn is_same(&self, other: &SlotCore) -> bool {
        self.number == other.number
            && same_link(self.previous, other.previous)
            && same_link(self.last_child, other.last_child)
            && same_held(&self.held, &other.held)
    }
}

/// The same core once more; names, attributes and texts are shared.
fn share_core(core: &SlotCore) -> Result<SlotCore, Memory>
    ensures { IfOk result (λ copy. copy ≡ core.now) }
{
    Ok(SlotCore {
        held: share_held(&core.held)?,
        previous: core.previous,
        number: core.number,
        last_child: core.last_child,
    })
}

fn share_held(held: &Held) -> Result<Held, Memory>
    ensures { IfOk result (λ copy. copy ≡ held.now) }
{
    match held {
        Held::Element { name, attrs } => Ok(Held::Element {
            name: name.share()?,
            attrs: attrs.share()?,
        }),
        Held::Text { text } => Ok(Held::Text {
            text: text.share()?,
        }),
        Held::Free => Ok(Held::Free),
    }
}

/// Whether both hold the same.
fn same_held(held: &Held, other: &Held) -> bool
    ensures { IsTrue result → held.now ≡ other.now }
{
    match held {
        Held::Element { name, attrs } => match other {
            Held::Element {
                name: other_name,
                attrs: other_attrs,
            } => same_text(name.as_str(), other_name.as_str()) && attrs.is_same(other_attrs),
            Held::Text { .. } | Held::Free => false,
        },
        Held::Text { text } => match other {
            Held::Text { text: other_text } => same_text(text.as_str(), other_text.as_str()),
            Held::Element { .. } | Held::Free => false,
        },
        Held::Free => match other {
            Held::Free => true,
            Held::Element { .. } | Held::Text { .. } => false,
        },
    }
}

/// Whether both link to the same node, or to none.
pub(crate) fn same_link(link: Option<NodeRef>, other: Option<NodeRef>) -> bool
    ensures { IsTrue result → link ≡ other }
{
    match link {
        Some(node) => match other {
            Some(other) => node.0 == other.0,
            None => false,
        },
        None => other.is_none(),
    }
}

/// Whether the texts are the same.
pub(crate) fn same_text(text: &str, other: &str) -> bool
    ensures { IsTrue result → text.now ≡ other.now }
{
    text == other
}
