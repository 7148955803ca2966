//! The texts of a document, with their references.

ghost use Rattle.std.specs.Prelude.{◌≡◌, ◌++◌, map, slice_index_or, Some, IfOk, OnOk};
ghost use Rattle.ordered_tree.specs.Leaves.{text_of, texts, texts_of};
ghost use Rattle.ordered_tree.specs.Slots.{IsRow, node_at, row};
ghost use Rattle.ordered_tree.specs.steps.Parts.{slot_of};

use crate::slot::Held;
use crate::slots::{SlotAt, Slots};
use crate::{DocTree, NodeRef};
use ft_base::Memory;

/// A text of a document, with its reference.
#[derive(Clone, Copy)]
pub struct TextAt<'a> {
    pub node: NodeRef,
    pub text: &'a str,
}

impl DocTree {
    /// The texts, in document order; none is copied.
    pub fn all_texts(&self) -> Result<Vec<TextAt<'_>>, Memory>
        ensures { IfOk result (λ all. map text_of all.items ≡ texts self.now.root) }
    {
        let mut list = Vec::new(self.alloc);
        add_texts(&self.slots, NodeRef(0), self.slots.get(0), &mut list)?;
        Ok(list)
    }
}

/// Puts the texts of a node, whose slot was read, to the end.
#[cycle(texts)]
fn add_texts<'a>(
    slots: &'a Slots,
    here: NodeRef,
    slot: SlotAt<'a>,
    list: &mut Vec<TextAt<'a>>,
) -> Result<(), Memory>
    requires row { IsRow slots.now (Some here) }
    requires slot { slot_of slot ≡ slice_index_or slots.now here.0 (slot_of slot) }
    ensures { OnOk result (map text_of list.new.items ≡ map text_of list.old.items ++ texts (node_at slots.now here)) }
{
    match slot.held {
        Held::Text { text } => {
            list.push(TextAt {
                node: here,
                text: text.as_str(),
            })?;
            Ok(())
        }
        Held::Element { .. } => add_all_texts(slots, slot.first_child, list),
        Held::Free => unreachable!(),
    }
}

/// Puts the texts of the nodes from a link on to the end.
#[cycle(texts)]
fn add_all_texts<'a>(
    slots: &'a Slots,
    first: Option<NodeRef>,
    list: &mut Vec<TextAt<'a>>,
) -> Result<(), Memory>
    requires { IsRow slots.now first }
    ensures { OnOk result (map text_of list.new.items ≡ map text_of list.old.items ++ texts_of (row slots.now first)) }
{
    let mut link = first;
    while let Some(here) = link {
        let slot = slots.get(here.0 as usize);
        add_texts(slots, here, slot, list)?;
        link = slot.around.next;
    }
    Ok(())
}
